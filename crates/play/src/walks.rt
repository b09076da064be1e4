//! Plays walks, a chunk of letters at a time.
//!
//! Letter by letter, 10 million letters with one push take three times as many instructions, and 10,000 solutions with one push each 40 %
//! more. A chunk with a push gains nothing.
//!
//! The letters of a chunk are tested together. One sum holds the player's place in its low 16 bits and the number of letters in its
//! high bits. A mailbox has a power of two of bytes, so masking a place keeps it in the mailbox. The place of a walk passes unchanged, because
//! a step from a free cell leads into the mailbox.
ghost use Rattle.std.specs.Prelude.{◌≡◌, ◌+◌, ◌≤◌, ◌<◌, ◌^◌, length, IfSome};
ghost use Rattle.play.specs.Mailbox.{HasMask};
ghost use Rattle.play.specs.Spelling.{letters};
ghost use Rattle.play.specs.Progress.{IsPlayed, WalksOn};

use crate::letters::{LETTER, NO_WALK, added};
use crate::mailbox::FREE;
use crate::run::Run;

// The number of letters that are tested together.
pub(crate) const CHUNK: usize = 8;

// Plays whole chunks up to the first one that has anything but blanks and walks onto free cells. Returns the number of bytes
// played.
#[inline(never)]
pub(crate) fn walk_chunks(mailbox: &[u8], run: &mut Run, text: &[u8]) -> usize
    requires masked { HasMask mailbox.now }
    requires room { run.old.tally.moves + length text.now < 2 ^ 64 }
    ensures { IsPlayed mailbox.now run.old text.now result mailbox.now run.new }
{
    // A constant mask saves an instruction for each letter.
    if mailbox.len() == 65536 {
        return walk_masked(mailbox, 65535, run, text);
    }
    walk_masked(mailbox, (mailbox.len() - 1) as u32, run, text)
}

// Plays whole chunks with the mask of the mailbox.
#[inline(always)]
fn walk_masked(mailbox: &[u8], mask: u32, run: &mut Run, text: &[u8]) -> usize
    requires masked { HasMask mailbox.now }
    requires mask { mask + 1 ≡ length mailbox.now }
    requires room { run.old.tally.moves + length text.now < 2 ^ 64 }
    ensures { IsPlayed mailbox.now run.old text.now result mailbox.now run.new }
{
    let mut player = run.player;
    let mut moves = run.tally.moves;
    let mut at = 0;
    'chunks: while text.len() - at >= CHUNK {
        let Some((next, steps)) = walk(mailbox, mask, player, &text[at..at + CHUNK]) else {
            break;
        };
        player = next;
        moves += steps;
        at += CHUNK;
    }
    run.player = player;
    run.tally.moves = moves;
    at
}

// Where the chunk leads and how many letters it has, if all of them walk onto free cells.
#[inline(always)]
fn walk(mailbox: &[u8], mask: u32, player: u16, chunk: &[u8]) -> Option<(u16, u64)>
    requires masked { HasMask mailbox.now }
    requires mask { mask + 1 ≡ length mailbox.now }
    requires few { length chunk.now ≤ CHUNK }
    ensures { IfSome result (λ walked.
        (walked.1 ≤ length chunk.now) × WalksOn mailbox.now player (letters chunk.now) walked.0 walked.1) }
{
    let mut sum = u32::from(player);
    let mut met = FREE;
    for byte in chunk {
        sum += added(*byte);
        met |= mailbox[(sum & mask) as usize];
    }
    if met == FREE && sum < NO_WALK {
        Some(((sum % 65536) as u16, u64::from(sum / LETTER)))
    } else {
        None
    }
}
