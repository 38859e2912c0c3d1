/// The text of the core signature, which is the file number 0 of each project.
pub const CORE_RBS: &str = "\
type boolish = top
class BasicObject
  def initialize: () -> void
  def ==: (top) -> bool
  def equal?: (top) -> bool
end
module Kernel : BasicObject
  def nil?: () -> bool
  def is_a?: (Module) -> bool
  def to_s: () -> String
  def itself: () -> self
  private
  def puts: (?String | Integer | Symbol | bool | nil) -> nil
end
class Object < BasicObject
  include Kernel
end
class Module
end
class Class < Module
end
class NilClass
end
class TrueClass
end
class FalseClass
end
class Proc
end
class Symbol
  def length: () -> Integer
end
class Integer
  def +: (Integer) -> Integer
  def -: (Integer) -> Integer
  def *: (Integer) -> Integer
  def /: (Integer) -> Integer
  def %: (Integer) -> Integer
  def -@: () -> Integer
  def <: (Integer) -> bool
  def <=: (Integer) -> bool
  def >: (Integer) -> bool
  def >=: (Integer) -> bool
  def <=>: (Integer) -> Integer
  def times: () { (Integer) -> void } -> self
  def upto: (Integer) { (Integer) -> void } -> self
end
class String
  def +: (String) -> String
  def <=>: (String) -> Integer
  def length: () -> Integer
  def empty?: () -> bool
  def to_sym: () -> Symbol
end
class Array[unchecked out E]
  def length: () -> Integer
  def empty?: () -> bool
  def []: (Integer) -> E?
  def fetch: (Integer) -> E
  def push: (E) -> self
  def <<: (E) -> self
  def pop: () -> E?
  def shift: () -> E?
  def +: (Array[E]) -> Array[E]
  def ==: (top) -> bool
  def include?: (top) -> bool
  def each: () { (E) -> void } -> self
  def map: [U] () { (E) -> U } -> Array[U]
  def select: () { (E) -> boolish } -> Array[E]
  def any?: () { (E) -> boolish } -> bool
  def find: () { (E) -> boolish } -> E?
  def inject: [A] (A) { (A, E) -> A } -> A
  private
  def __copy: (top) -> Array[top]?
end
class Hash[unchecked out K, unchecked out V]
  def length: () -> Integer
  def empty?: () -> bool
  def []: (K) -> V?
  def []=: (K, V) -> V
  def fetch: (K) -> V
  def key?: (K) -> bool
  def delete: (K) -> V?
  def keys: () -> Array[K]
  def values: () -> Array[V]
  def each: () { ([K, V]) -> void } -> self
  def map: [U] () { ([K, V]) -> U } -> Array[U]
  private
  def __pairs: () -> Array[[K, V]]
end
class Exception
  @message: String
  def initialize: (?String) -> void
  def message: () -> String
end
class StandardError < Exception
end
class TestError < Exception
end
class ArgumentError < StandardError
end
class NameError < StandardError
end
class IndexError < StandardError
end
class RangeError < StandardError
end
class ZeroDivisionError < StandardError
end
class LocalJumpError < StandardError
end
class NoMethodError < NameError
end
class KeyError < IndexError
end
";
