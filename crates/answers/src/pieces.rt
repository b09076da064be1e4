//! The letters of a solution, in pieces of its text.
//!
//! This is for speed: with the lines of `read`, an audit of 10 million letters in lines of 70 takes 60 % more instructions, and one of
//! 10,000 solutions of some lines 12 %. A solution in one line gains nothing.

ghost use Rattle.std.specs.Prelude.{◌≡◌, ℕ, ◌+◌, ◌<◌, ◌≤◌, ◌^◌, ◌++◌, List, length, slice_index, sum_by, IfOk, IfSome, IfNone};
ghost use Rattle.answers.specs.Body.{LetterLines};
ghost use Rattle.answers.specs.Records.{SaysOfLevel};
ghost use Rattle.answers.specs.Pieces.{ArePiecesOf, BeginsComment, NoCommentBelow, joined, letters_in, unbroken};

use crate::record_text::RecordText;
use bstr::ByteSlice;
use lines::{NotByte, first_start};
use std::alloc::{AllocError, Global};

// Returns the place at which the first comment begins.
fn comment_at(lines: &[u8]) -> Option<usize>
    ensures within { IfSome result (λ at. at < length lines.now) }
    ensures comment { IfSome result (λ at. BeginsComment lines.now at) }
    ensures before { IfSome result (λ at. NoCommentBelow at lines.now) }
    ensures none { IfNone result (NoCommentBelow (length lines.now) lines.now) }
{
    // After a comment often comes another one.
    if let [b';', ..] = lines {
        return Some(0);
    }
    let mut from = 0;
    while let Some(next) = (&lines[from..]).find_byte(b';') {
        let at = from + next;
        if at == 0 || lines[at - 1] == b'\n' {
            return Some(at);
        }
        from = at + 1;
    }
    None
}

// Returns the lines after the comments with which these lines begin.
fn past_comments(lines: &[u8]) -> &[u8]
    requires { slice_index lines.now 0 ≡ 59 }
    ensures letters { letters_in result.now ≡ letters_in lines.now }
    ensures shorter { length result.now < length lines.now }
{
    match first_start(lines, NotByte(b';')) {
        Some(start) => &lines[start.at..],
        None => &lines[lines.len()..],
    }
}

// Returns the lines before the first comment, and the lines after it and any further comments.
fn cut_at_comment(lines: &[u8]) -> (&[u8], &[u8])
    requires { 0 < length lines.now }
    ensures letters { letters_in lines.now ≡ unbroken result.0.now ++ letters_in result.1.now }
    ensures within { length result.0.now + length result.1.now ≤ length lines.now }
    ensures shorter { length result.1.now < length lines.now }
{
    let Some(at) = comment_at(lines) else {
        return lines.split_at(lines.len());
    };
    let (piece, comments) = lines.split_at(at);
    let rest = past_comments(comments);
    (piece, rest)
}

// Returns the pieces between comments that aren't empty.
fn pieces_of(alloc: Global, lines: &[u8]) -> Result<Vec<&[u8]>, AllocError>
    ensures letters { IfOk result (λ pieces. unbroken (joined pieces.items) ≡ letters_in lines.now) }
    ensures within { IfOk result (λ pieces. sum_by (λ piece. length piece.now) pieces.items ≤ length lines.now) }
{
    let mut pieces = Vec::new(alloc);
    let mut left = lines;
    while !left.is_empty() {
        let (piece, rest) = cut_at_comment(left);
        if !piece.is_empty() {
            pieces.push(piece)?;
        }
        left = rest;
    }
    Ok(pieces)
}

impl<'a> RecordText<'a> {
    /// Returns the body lines of a solution as pieces of the text between their comments, line ends included, which have its letters.
    /// Nothing is said of a certificate.
    pub fn letters(&self, alloc: Global) -> Result<Vec<&'a [u8]>, AllocError>
        ensures letters { IfOk result (λ pieces. (lines : List (List ℕ)) → SaysOfLevel self.now (LetterLines lines) → ArePiecesOf lines pieces.items) }
        // For callers: a `u64` can count the bytes of all pieces.
        ensures count { IfOk result (λ pieces. sum_by (λ piece. length piece.now) pieces.items < 2 ^ 64) }
    {
        pieces_of(alloc, self.lines.text)
    }
}
