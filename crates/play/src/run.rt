//! Plays the letters of a solution one by one on a mailbox.
ghost use Rattle.std.specs.Prelude.{◌≡◌, ◌+◌, ◌≤◌, ◌<◌, ◌^◌, [], ◌∷◌, IfErr, OnOk};
ghost use Rattle.play.specs.Spelling.{letters};
ghost use Rattle.play.specs.Mailbox.{place_of};
ghost use Rattle.play.specs.Letter.{IsRead};
ghost use Rattle.play.specs.Progress.{HasRoom, CountsPush, IsNoWalk, IsUnderWay, Continues, FailsBy, FailsOn};

use crate::fault::{MoveWhy, ReplayFault};
use crate::letters::{FOREIGN, Letter, PUSH, WALK, read};
use crate::mailbox::{BOX, FREE, WALL, place};
use crate::tally::Tally;
use cellset::Cell;

// The state of a replay, apart from its mailbox.
#[derive(Clone, Copy)]
pub(crate) struct Run {
    pub(crate) player: u16,
    // The place to which the last push led, or 0, which is no cell's.
    pub(crate) last: u16,
    // The counts of the letters played so far.
    pub(crate) tally: Tally,
}

// The state before the first letter.
pub(crate) fn begin(player: Cell) -> Run
    ensures { result ≡ record {
      player = place_of player;
      last = 0;
      tally = record { moves = 0; pushes = 0; changes = 0 };
    } }
{
    Run {
        player: place(player),
        last: 0,
        tally: Tally {
            moves: 0,
            pushes: 0,
            changes: 0,
        },
    }
}

// Plays one letter and counts it. A blank walks onto the player's own cell and isn't counted.
#[inline]
pub(crate) fn play_letter(mailbox: &mut [u8], run: &mut Run, byte: u8) -> Result<(), ReplayFault>
    requires under_way { IsUnderWay mailbox.old run.old }
    requires room { run.old.tally.moves + 1 < 2 ^ 64 }
    ensures moves { OnOk result (run.new.tally.moves ≤ run.old.tally.moves + 1) }
    ensures ok { OnOk result (Continues mailbox.old run.old (letters (byte ∷ [])) mailbox.new run.new) }
    ensures err { IfErr result (FailsOn mailbox.old run.old (letters (byte ∷ []))) }
{
    let letter = read(byte);
    let ahead = run.player.wrapping_add(letter.step);
    if mailbox[ahead as usize] == FREE && letter.kind == WALK {
        run.player = ahead;
        run.tally.moves += u64::from(byte > b' ');
        return Ok(());
    }
    let number = run.tally.moves + 1;
    match push(mailbox, run, letter) {
        Ok(()) => Ok(()),
        Err(why) => Err(ReplayFault::Move { number, why }),
    }
}

// Plays a letter that isn't a possible walk.
#[inline]
fn push(mailbox: &mut [u8], run: &mut Run, letter: Letter) -> Result<(), MoveWhy>
    requires under_way { IsUnderWay mailbox.old run.old }
    requires room { run.old.tally.moves + 1 < 2 ^ 64 }
    requires read { IsRead letter }
    requires no_walk { IsNoWalk mailbox.old run.old letter }
    ensures moves { OnOk result (run.new.tally.moves ≡ run.old.tally.moves + 1) }
    ensures ok { OnOk result (Continues mailbox.old run.old (letters (letter.byte ∷ [])) mailbox.new run.new) }
    ensures err { IfErr result (FailsBy mailbox.old run.old (letters (letter.byte ∷ [])) (run.old.tally.moves + 1)) }
{
    let ahead = run.player.wrapping_add(letter.step);
    let beyond = ahead.wrapping_add(letter.step);
    match mailbox[ahead as usize] {
        _ if letter.kind == FOREIGN => Err(MoveWhy::Letter),
        WALL => Err(MoveWhy::Wall),
        BOX if mailbox[beyond as usize] != FREE => Err(MoveWhy::Blocked),
        BOX if letter.kind == PUSH => {
            mailbox[ahead as usize] = FREE;
            mailbox[beyond as usize] = BOX;
            count_push(run, ahead, beyond);
            Ok(())
        }
        _ => Err(MoveWhy::Case),
    }
}

// Counts a push from one place to another.
fn count_push(run: &mut Run, from: u16, to: u16)
    requires { HasRoom run.old }
    ensures { CountsPush run.old from to run.new }
{
    run.tally.moves += 1;
    run.tally.pushes += 1;
    if run.last != from {
        run.tally.changes += 1;
    }
    run.last = to;
    run.player = from;
}
