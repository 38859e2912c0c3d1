//! What stands before a place in a text.

ghost use Rattle.std.specs.Prelude.{◌≡◌, ◌≤◌, ◌||◌, ◌==◌, nat_lt, true, length, IfOk, OnErr, OnOk, IfSome};
ghost use Rattle.rbs_terminals.specs.Kinds.{kind_at};
ghost use Rattle.rbs_terminals.specs.Sorts.{sort_of};
ghost use Rattle.rbs_terminals.specs.Terminals as at;

use crate::kinds::kind_of;
use crate::lead::Lead;
use crate::sorts::{Sort, kind_by};
use crate::token::{Gap, Spot, Token};
use crate::values::word_of;
use plain_data::{Many, NoMemory, Word};
use rbs_lexer::SigToken;
use std::alloc::Global;
use std::mem;

/// What stands before a place in a text, as far as it tells of the terminal there.
#[derive(Debug, Drop)]
pub struct Before {
    /// Where the last token ends that is no comment.
    pub last: Option<u32>,
    /// Where the last token or comment ends, 0 where there is none.
    pub end: u32,
    /// The comment lines that end there, each on a line of its own and directly behind the one before it.
    pub comments: Many<Word>,
}

pub fn text_of<'a>(bytes: &'a [u8], token: &SigToken) -> &'a [u8]
    requires order { token.now.place.start ≤ token.now.place.end }
    requires within { token.now.place.end ≤ length bytes.now }
    ensures { result.now ≡ at.text_of bytes.now token.now }
{
    &bytes[token.place.start as usize..token.place.end as usize]
}

/// How many newlines stand from one byte up to another.
fn newlines(bytes: &[u8], from: u32, to: u32) -> usize
    requires order { from ≤ to }
    requires within { to ≤ length bytes.now }
    ensures { result ≡ at.newlines bytes.now from to }
{
    let between = &bytes[from as usize..to as usize];
    between.iter().filter(|byte| **byte == b'\n').count()
}

/// Whether nothing but blanks stands on a line before a byte, behind what ends at `end`, 0 for nothing, where `lines`
/// newlines stand between.
fn begins_line(end: u32, lines: usize) -> bool
    ensures { result ≡ (end == 0 || nat_lt 0 lines) }
{
    end == 0 || lines > 0
}

/// The gap before a token, by where the terminal before it ends.
pub fn gap_at(bytes: &[u8], last: Option<u32>, start: u32) -> Gap
    requires order { IfSome last (λ end. end ≤ start) }
    requires within { start ≤ length bytes.now }
    ensures { result ≡ at.gap_at bytes.now last start }
{
    match last {
        None => Gap::Line,
        Some(end) => {
            if end == start {
                Gap::Joined
            } else if newlines(bytes, end, start) == 0 {
                Gap::Blank
            } else {
                Gap::Line
            }
        }
    }
}

pub fn end_or_start(last: Option<u32>) -> u32
    ensures { result ≡ at.end_or_start last }
{
    match last {
        None => 0,
        Some(end) => end,
    }
}

impl Before {
    /// Where nothing was read yet.
    pub fn new(alloc: Global) -> Before
        ensures { result ≡ at.at_start }
    {
        Before {
            last: None,
            end: 0,
            comments: Many::new(alloc),
        }
    }

    /// Passes a comment.
    pub fn pass_comment(
        &mut self,
        alloc: Global,
        bytes: &[u8],
        token: &SigToken,
    ) -> Result<(), NoMemory>
        requires comment { at.is_comment token.now.kind ≡ true }
        requires stands { at.StandsFrom bytes.now self.old.end token.now }
        ensures ok { OnOk result (self.new ≡ at.behind_comment bytes.now self.old token.now) }
        ensures err { OnErr result (self.new ≡ self.old) }
    {
        let lines = newlines(bytes, self.end, token.place.start);
        if begins_line(self.end, lines) {
            let text = word_of(alloc, &text_of(bytes, token)[1..])?;
            if lines == 1 {
                self.comments.push(text)?;
            } else {
                let mut comments = Many::new(alloc);
                comments.push(text)?;
                self.comments = comments;
            }
        } else {
            self.comments = Many::new(alloc);
        }
        self.end = token.place.end;
        Ok(())
    }

    /// Passes a token that is no comment and ends there.
    pub fn pass_end(&mut self, alloc: Global, end: u32)
        ensures { self.new ≡ at.behind end }
    {
        self.last = Some(end);
        self.end = end;
        if !self.comments.is_empty() {
            self.comments = Many::new(alloc);
        }
    }

    /// Passes a token that is no comment and stands there, and answers the comments that it carries.
    fn pass_carrying(&mut self, alloc: Global, bytes: &[u8], start: u32, end: u32) -> Many<Word>
        requires order { self.old.end ≤ start }
        requires within { start ≤ length bytes.now }
        ensures comments { result ≡ at.carried bytes.now self.old start }
        ensures behind { self.new ≡ at.behind end }
    {
        let mut comments = Many::new(alloc);
        if !self.comments.is_empty() {
            let before = mem::replace(&mut self.comments, Many::new(alloc));
            if newlines(bytes, self.end, start) == 1 {
                comments = before;
            }
        }
        self.last = Some(end);
        self.end = end;
        comments
    }

    /// Passes a token that is no comment, and answers the terminal that it is.
    pub fn pass_token(
        &mut self,
        alloc: Global,
        bytes: &[u8],
        token: &SigToken,
    ) -> Result<Token, NoMemory>
        requires order { IfSome self.old.last (λ last. last ≤ self.old.end) }
        requires stands { at.StandsFrom bytes.now self.old.end token.now }
        ensures terminal { IfOk result (λ terminal. terminal ≡ at.terminal_at bytes.now self.old token.now) }
        ensures ok { OnOk result (self.new ≡ at.behind_token token.now) }
        ensures err { OnErr result (self.new ≡ self.old) }
    {
        let place = token.place;
        let kind = kind_of(alloc, token.kind, text_of(bytes, token))?;
        let gap = gap_at(bytes, self.last, place.start);
        let before = end_or_start(self.last);
        let comments = self.pass_carrying(alloc, bytes, place.start, place.end);
        Ok(Token {
            kind,
            spot: Spot {
                before,
                gap,
                start: place.start,
                end: place.end,
                comments,
            },
        })
    }

    /// Passes a token that is no comment and whose terminal is of this sort, and answers that terminal as it leads a phrase.
    pub fn pass_lead(
        &mut self,
        alloc: Global,
        bytes: &[u8],
        sort: Sort,
        token: &SigToken,
    ) -> Result<Lead, NoMemory>
        requires stands { at.StandsFrom bytes.now self.old.end token.now }
        requires sort { sort ≡ sort_of (kind_at token.now.kind (at.text_of bytes.now token.now)) }
        ensures lead { IfOk result (λ lead. at.Leads lead (at.terminal_at bytes.now self.old token.now)) }
        ensures ok { OnOk result (self.new ≡ at.behind_token token.now) }
        ensures err { OnErr result (self.new ≡ self.old) }
    {
        let place = token.place;
        let kind = kind_by(alloc, sort, token.kind, text_of(bytes, token))?;
        let comments = self.pass_carrying(alloc, bytes, place.start, place.end);
        Ok(Lead {
            kind,
            start: place.start,
            end: place.end,
            comments,
        })
    }
}
