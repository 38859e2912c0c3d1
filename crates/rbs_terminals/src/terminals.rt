//! The terminals of a text, one at a time.

ghost use Rattle.std.specs.Prelude.{◌≡◌, [], ◌∷◌, ◌≤◌, Some, None, IfSome, IfOk, MatchOption, OnErr, OnOk, true};
ghost use Rattle.rbs_terminals.specs.declared.token.Token.{Token};
ghost use Rattle.rbs_terminals.specs.Sorts.{sort_of, next_sort, next_gap, next_before};
ghost use Rattle.rbs_terminals.specs.Terminals.{AllStand, Leads, behind_first, begins_uncommented, first_token, is_comment, terminals, terminals_from};

use crate::before::{Before, end_or_start, gap_at, text_of};
use crate::lead::Lead;
use crate::sorts::{Sort, kind_by, sort_at};
use crate::token::{Gap, Kind, Token};
use plain_data::NoMemory;
use rbs_lexer::{SigToken, TokenKind};
use std::alloc::Global;
use std::marker::Model;

fn is_comment(kind: TokenKind) -> bool
    ensures { result ≡ is_comment kind }
{
    matches!(kind, TokenKind::Comment)
}

/// The first token that is no comment, and the tokens behind it.
fn first_of<'a>(tokens: &'a [SigToken]) -> Option<(&'a SigToken, &'a [SigToken])>
    ensures { MatchOption result (first_token tokens.now ≡ None) (λ found. (first_token tokens.now ≡ Some found.0.now) × (behind_first tokens.now ≡ found.1.now)) }
{
    let mut left = tokens;
    while let Some((token, rest)) = left.split_first() {
        if !is_comment(token.kind) {
            return Some((token, rest));
        }
        left = rest;
    }
    None
}

/// Passes the comments that come first. `NoMemory` leaves the terminals as they were.
fn pass_comments(
    before: &mut Before,
    alloc: Global,
    bytes: &[u8],
    tokens: &mut &[SigToken],
) -> Result<(), NoMemory>
    requires order { IfSome before.old.last (λ last. last ≤ before.old.end) }
    requires stand { AllStand bytes.now before.old.end tokens.old.now }
    ensures left { terminals_from bytes.now before.new tokens.new.now ≡ terminals_from bytes.now before.old tokens.old.now }
    ensures order { IfSome before.new.last (λ last. last ≤ before.new.end) }
    ensures stand { AllStand bytes.now before.new.end tokens.new.now }
    ensures first { OnOk result (begins_uncommented tokens.new.now ≡ true) }
{
    while let Some((token, rest)) = tokens.split_first() {
        if !is_comment(token.kind) {
            return Ok(());
        }
        before.pass_comment(alloc, bytes, token)?;
        *tokens = rest;
    }
    Ok(())
}

/// The terminals of a text that are still to come, which contracts see as their list.
#[derive(Drop)]
pub struct Terminals<'a> {
    alloc: Global,
    bytes: &'a [u8],
    tokens: &'a [SigToken],
    before: Before,
}

impl<'a> Model for Terminals<'a> {
    ghost use Rattle.std.specs.Prelude.{List, ◌≤◌, IfSome};
    ghost use Rattle.rbs_terminals.specs.declared.token.Token.{Token as Terminal};

    ghost Value = { List Terminal };

    ghost use Rattle.rbs_terminals.specs.Terminals.{AllStand, terminals_from};

    ghost view = { λ t. terminals_from t.bytes.now t.before t.tokens.now };

    ghost invariant = { λ t. (IfSome t.before.last (λ last. last ≤ t.before.end)) × AllStand t.bytes.now t.before.end t.tokens.now };
}

impl<'a> Terminals<'a> {
    /// The terminals that the tokens of a text are. The tokens are those of the bytes, as `rbs_lexer::tokens`
    /// answers them.
    pub fn new(alloc: Global, bytes: &'a [u8], tokens: &'a [SigToken]) -> Terminals<'a>
        requires { AllStand bytes.now 0 tokens.now }
        ensures { result ≡ terminals bytes.now tokens.now }
    {
        Terminals {
            alloc,
            bytes,
            tokens,
            before: Before::new(alloc),
        }
    }

    /// The next terminal, or `None` behind the last one. `NoMemory` leaves all as it was.
    pub fn next(&mut self) -> Result<Option<Token>, NoMemory>
        ensures ok { IfOk result (λ next. MatchOption next ((self.old ≡ []) × (self.new ≡ [])) (λ terminal. self.old ≡ terminal ∷ self.new)) }
        ensures err { OnErr result (self.new ≡ self.old) }
    {
        pass_comments(&mut self.before, self.alloc, self.bytes, &mut self.tokens)?;
        let Some((token, rest)) = self.tokens.split_first() else {
            return Ok(None);
        };
        let terminal = self.before.pass_token(self.alloc, self.bytes, token)?;
        self.tokens = rest;
        Ok(Some(terminal))
    }

    /// What the next terminal is, but for its text or its value, or `None` behind the last one.
    pub fn sort(&self) -> Option<Sort>
        ensures { result ≡ next_sort self.now }
    {
        match first_of(self.tokens) {
            Some((token, _)) => Some(sort_at(token.kind, text_of(self.bytes, token))),
            None => None,
        }
    }

    /// What stands between the next terminal and the one before it, or `None` behind the last one.
    pub fn gap(&self) -> Option<Gap>
        ensures { result ≡ next_gap self.now }
    {
        match first_of(self.tokens) {
            Some((token, _)) => Some(gap_at(self.bytes, self.before.last, token.place.start)),
            None => None,
        }
    }

    /// Where the terminal before the next one ends, or `None` behind the last one.
    pub fn before(&self) -> Option<u32>
        ensures { result ≡ next_before self.now }
    {
        match first_of(self.tokens) {
            Some(_) => Some(end_or_start(self.before.last)),
            None => None,
        }
    }

    /// Passes the next terminal, and answers where it ends, or `None` behind the last one. Takes no memory.
    pub fn pass(&mut self) -> Option<u32>
        ensures { MatchOption result ((self.old ≡ []) × (self.new ≡ [])) (λ end. (c : Token) × (self.old ≡ c ∷ self.new) × (end ≡ c.spot.end)) }
    {
        let Some((token, rest)) = first_of(self.tokens) else {
            return None;
        };
        self.tokens = rest;
        self.before.pass_end(self.alloc, token.place.end);
        Some(token.place.end)
    }

    /// Passes the next terminal, whose sort is this, and answers what it is and where it ends, or `None` behind the last one. `NoMemory`
    /// leaves all as it was.
    pub fn take(&mut self, sort: Sort) -> Result<Option<(Kind, u32)>, NoMemory>
        requires { IfSome (next_sort self.old) (λ next. next ≡ sort) }
        ensures ok { IfOk result (λ next. MatchOption next ((self.old ≡ []) × (self.new ≡ [])) (λ taken. (c : Token) × (self.old ≡ c ∷ self.new) × (taken.0 ≡ c.kind) × (taken.1 ≡ c.spot.end))) }
        ensures err { OnErr result (self.new ≡ self.old) }
    {
        let Some((token, rest)) = first_of(self.tokens) else {
            return Ok(None);
        };
        let kind = kind_by(self.alloc, sort, token.kind, text_of(self.bytes, token))?;
        self.tokens = rest;
        self.before.pass_end(self.alloc, token.place.end);
        Ok(Some((kind, token.place.end)))
    }

    /// Passes the next terminal, whose sort is this, and answers it as it leads a phrase, or `None` behind the last one. `NoMemory`
    /// leaves all as it was.
    pub fn lead(&mut self, sort: Sort) -> Result<Option<Lead>, NoMemory>
        requires { IfSome (next_sort self.old) (λ next. next ≡ sort) }
        ensures ok { IfOk result (λ next. MatchOption next ((self.old ≡ []) × (self.new ≡ [])) (λ lead. (c : Token) × (self.old ≡ c ∷ self.new) × Leads lead c)) }
        ensures err { OnErr result (self.new ≡ self.old) }
    {
        pass_comments(&mut self.before, self.alloc, self.bytes, &mut self.tokens)?;
        let Some((token, rest)) = self.tokens.split_first() else {
            return Ok(None);
        };
        let lead = self.before.pass_lead(self.alloc, self.bytes, sort, token)?;
        self.tokens = rest;
        Ok(Some(lead))
    }
}
