//! A place in the terminals of a text.

ghost use Rattle.std.specs.Prelude.{◌≡◌, ◌≤◌, ◌<◌, ◌+◌, ◌↔◌, ◌∷◌, length, Some, true, IfOk, IsTrue, OnOk};
ghost use Rattle.rbs_terminals.specs.declared.token.Token.{Token};
ghost use Rattle.rbs_terminals.specs.declared.token.Spot.{Spot};
ghost use Rattle.rbs_terminals.specs.Sorts.{next_sort, next_gap, next_before};
ghost use Rattle.rbs_types.specs.Symbols.{token};
ghost use Rattle.rbs_phrases.specs.Fronts.{whole, Marked, IsNext, Skips};
ghost use Rattle.rbs_phrases.specs.Ahead.{opens_by_sort, is_small_sort, mark_of, keyword_of, next_mark, next_keyword};

use crate::unread::Unread;
use rbs_terminals::{Gap, Keyword, Kind, Lead, Mark, Sort, Terminals};
use std::marker::Model;

/// A place in the terminals of a text: those to come, what the first of them is, where the last one ends that was taken, and how many
/// brackets were opened by those that were taken.
#[derive(Drop)]
pub struct Cursor<'a> {
    terminals: Terminals<'a>,
    ahead: Option<Sort>,
    end: u32,
    opened: u32,
}

impl<'a> Model for Cursor<'a> {
    ghost use Rattle.std.specs.Prelude.{◌≡◌};
    ghost use Rattle.rbs_terminals.specs.Sorts.{next_sort};
    ghost use Rattle.rbs_phrases.specs.Fronts.{Front};

    ghost Value = { Front };

    ghost view = { λ c. record { rest = c.terminals; end = c.end; opened = c.opened } };

    ghost invariant = { λ c. c.ahead ≡ next_sort c.terminals };
}

/// How many brackets are opened, these and that which a terminal of this sort opens.
///
/// # Errors
///
/// `Other` at an integer past 64 bits, which is never taken.
fn opened_by(before: u32, sort: Sort) -> Result<u32, Unread>
    ensures opened { IfOk result (λ opened. opened ≡ before + opens_by_sort sort) }
    ensures small { OnOk result (is_small_sort sort ≡ true) }
{
    match sort {
        Sort::Mark(Mark::Open | Mark::OpenSquare | Mark::OpenBrace) => {
            before.checked_add(1).ok_or(Unread::Other)
        }
        Sort::PastInteger => Err(Unread::Other),
        _ => Ok(before),
    }
}

/// The mark that is next, if one is.
fn mark_of(ahead: Option<Sort>) -> Option<Mark>
    ensures { result ≡ mark_of ahead }
{
    match ahead {
        Some(Sort::Mark(mark)) => Some(mark),
        _ => None,
    }
}

/// This mark is next.
fn is_ahead(ahead: Option<Sort>, mark: Mark) -> bool
    ensures { IsTrue result ↔ (mark_of ahead ≡ Some mark) }
{
    match ahead {
        Some(Sort::Mark(found)) => found == mark,
        _ => false,
    }
}

/// The keyword that is next, if one is.
fn keyword_of(ahead: Option<Sort>) -> Option<Keyword>
    ensures { result ≡ keyword_of ahead }
{
    match ahead {
        Some(Sort::Keyword(keyword)) => Some(keyword),
        _ => None,
    }
}

impl<'a> Cursor<'a> {
    /// Before all of these terminals.
    pub fn new(terminals: Terminals<'a>) -> Cursor<'a>
        ensures { result ≡ record { rest = terminals.entry; end = 0; opened = 0 } }
    {
        let ahead = terminals.sort();
        Cursor {
            terminals,
            ahead,
            end: 0,
            opened: 0,
        }
    }

    /// What the next terminal is, but for its text or its value, or `None` behind the last one.
    pub fn sort(&self) -> Option<Sort>
        ensures { result ≡ next_sort self.now.rest }
    {
        self.ahead
    }

    /// The mark that is next, if one is.
    pub fn mark(&self) -> Option<Mark>
        ensures { result ≡ next_mark self.now.rest }
    {
        mark_of(self.ahead)
    }

    /// The keyword that is next, if one is.
    pub fn keyword(&self) -> Option<Keyword>
        ensures { result ≡ next_keyword self.now.rest }
    {
        keyword_of(self.ahead)
    }

    /// What stands between the next terminal and the one before it, or `None` behind the last one.
    pub fn gap(&self) -> Option<Gap>
        ensures { result ≡ next_gap self.now.rest }
    {
        self.terminals.gap()
    }

    /// Where the terminal before the next one ends, or `None` behind the last one.
    pub fn before(&self) -> Option<u32>
        ensures { result ≡ next_before self.now.rest }
    {
        self.terminals.before()
    }

    /// Where the last terminal ends that was taken, 0 where none was.
    pub fn end(&self) -> u32
        ensures { result ≡ self.now.end }
    {
        self.end
    }

    /// How many brackets were opened by the terminals that were taken.
    pub fn opened(&self) -> u32
        ensures { result ≡ self.now.opened }
    {
        self.opened
    }

    /// Takes the next terminal, and answers it as it leads a phrase.
    ///
    /// # Errors
    ///
    /// `Other` behind the last one, and at an integer past 64 bits; `NoMemory` where there is none for it.
    pub fn lead(&mut self) -> Result<Lead, Unread>
        ensures next { IfOk result (λ l. (s : Spot) × (self.old.rest ≡ token l.kind s ∷ self.new.rest) × (l.start ≡ s.start) × (l.comments ≡ s.comments) × (self.new.end ≡ s.end)) }
        ensures kept { OnOk result (whole self.new ≡ whole self.old) }
        ensures shorter { OnOk result (length self.new.rest < length self.old.rest) }
    {
        let Some(sort) = self.ahead else {
            return Err(Unread::Other);
        };
        let opened = opened_by(self.opened, sort)?;
        let Some(lead) = self.terminals.lead(sort)? else {
            return Err(Unread::Other);
        };
        self.ahead = self.terminals.sort();
        self.end = lead.end;
        self.opened = opened;
        Ok(lead)
    }

    /// Takes the next terminal, and answers what it is.
    ///
    /// # Errors
    ///
    /// As [`Cursor::lead`].
    pub fn kind(&mut self) -> Result<Kind, Unread>
        ensures next { IfOk result (λ k. (s : Spot) × (self.old.rest ≡ token k s ∷ self.new.rest)) }
        ensures kept { OnOk result (whole self.new ≡ whole self.old) }
        ensures shorter { OnOk result (length self.new.rest < length self.old.rest) }
    {
        let Some(sort) = self.ahead else {
            return Err(Unread::Other);
        };
        let opened = opened_by(self.opened, sort)?;
        let Some((kind, end)) = self.terminals.take(sort)? else {
            return Err(Unread::Other);
        };
        self.ahead = self.terminals.sort();
        self.end = end;
        self.opened = opened;
        Ok(kind)
    }

    /// Takes the next terminal, whatever it is.
    ///
    /// # Errors
    ///
    /// `Other` behind the last one, and at an integer past 64 bits.
    pub fn pass(&mut self) -> Result<(), Unread>
        ensures next { OnOk result ((c : Token) × (self.old.rest ≡ c ∷ self.new.rest) × (self.new.end ≡ c.spot.end)) }
        ensures kept { OnOk result (whole self.new ≡ whole self.old) }
        ensures shorter { OnOk result (length self.new.rest < length self.old.rest) }
    {
        let Some(sort) = self.ahead else {
            return Err(Unread::Other);
        };
        let opened = opened_by(self.opened, sort)?;
        let Some(end) = self.terminals.pass() else {
            return Err(Unread::Other);
        };
        self.ahead = self.terminals.sort();
        self.end = end;
        self.opened = opened;
        Ok(())
    }

    /// The next terminal is this mark.
    pub fn is_next(&self, mark: Mark) -> bool
        ensures { IsTrue result ↔ IsNext mark self.now.rest }
    {
        is_ahead(self.ahead, mark)
    }

    /// Takes the next terminal if it is this mark, and answers whether it did.
    ///
    /// # Errors
    ///
    /// `Other` where one bracket more can't be counted.
    pub fn skip(&mut self, mark: Mark) -> Result<bool, Unread>
        ensures skipped { IfOk result (λ skipped. Skips mark skipped self.old.rest self.new.rest) }
        ensures kept { OnOk result (whole self.new ≡ whole self.old) }
        ensures shorter { OnOk result (length self.new.rest ≤ length self.old.rest) }
    {
        if self.is_next(mark) {
            self.pass()?;
            Ok(true)
        } else {
            Ok(false)
        }
    }

    /// Takes the next terminal, which must be this mark.
    ///
    /// # Errors
    ///
    /// `Other` where it isn't.
    pub fn expect(&mut self, mark: Mark) -> Result<(), Unread>
        ensures marked { OnOk result (Marked mark self.old.rest self.new.rest) }
        ensures kept { OnOk result (whole self.new ≡ whole self.old) }
        ensures shorter { OnOk result (length self.new.rest < length self.old.rest) }
    {
        if self.skip(mark)? {
            Ok(())
        } else {
            Err(Unread::Other)
        }
    }
}
