//! The texts of a call: what is said of one that can't be read whole, and the levels of one.
ghost use Rattle.std.specs.Prelude.{◌≡◌, ◌≤◌, ◌⊎◌, length, IfOk, IfErr};
ghost use Rattle.board.specs.Levels.{AreLevelsOf, most_levels};
ghost use Rattle.board.specs.Lines.{lines_in, without_mark};
ghost use Rattle.report.specs.Collection.{HasTooManyLevels, error_of_read};

use crate::fault::{AuditError, Which};
use board::{LevelText, LevelsFault, levels};
use devices::ReadFault;
use std::alloc::Global;

/// Returns the error of a call that can't read that text whole.
pub fn read_error(fault: ReadFault, which: Which) -> AuditError
    ensures { result ≡ error_of_read fault which }
{
    match fault {
        ReadFault::Device => AuditError::Read { which },
        ReadFault::TooLong => AuditError::TooLong { which },
        ReadFault::Memory => AuditError::Memory,
    }
}

/// Returns the levels of a text, in order.
pub fn levels_in(alloc: Global, text: &[u8]) -> Result<Vec<LevelText<'_>>, AuditError>
    ensures ok { IfOk result (λ found. AreLevelsOf found.items (lines_in (without_mark text.now))) }
    ensures few { IfOk result (λ found. length found.items ≤ most_levels) }
    ensures err { IfErr result (λ error. (error ≡ AuditError.Memory) ⊎ ((error ≡ AuditError.TooManyLevels) × HasTooManyLevels text.now)) }
{
    match levels(alloc, text) {
        Ok(found) => Ok(found),
        Err(LevelsFault::TooMany) => Err(AuditError::TooManyLevels),
        Err(LevelsFault::Memory) => Err(AuditError::Memory),
    }
}
