//! The answers text: reading and writing it, exactly by its grammar.
//!
//! Contracts see a text as the list of its bytes, its lines as numbered lists, and a record as the `Entry` that it says: the
//! number of a level, with letter lines, patterns, a zone, or the first bad line.
//!
//! `read` returns Ok exactly for the texts of the grammar, and otherwise the first fault. `split` finds the records of such a
//! text without reading them; then `RecordText::read` reads one record, and `RecordText::letters` returns the letters of a
//! solution in pieces of the text. `RecordText::certificate` returns the lines of a certificate, of which
//! `CertificateLines::next` reads one at a time. `RecordText::place` says where a record is. `write` writes the canonical text of records, which reads back as the same
//! records.
//!
//! Read `specs/Grammar.antt` first, then `specs/FirstFault.antt`, `specs/Records.antt`, `specs/Pieces.antt`,
//! `specs/Certificates.antt`, `specs/Canonical.antt` and `specs/RoundTrip.antt`.
#![tactic(auto)]

mod body;
mod cells;
mod certificate;
mod fault;
mod laws;
mod line;
mod pattern;
mod pattern_line;
mod pieces;
mod reading;
mod record;
mod record_text;
mod round_trip;
mod splitting;
mod writing;

pub use devices::{Blown, Device, DeviceFault, Fuse, Sink, Source, write_whole};
pub use fault::{AnswersFault, Why};
pub use laws::texts_have_one_reading;
pub use pattern::{Coord, Pattern, Seeds, Zone};
pub use reading::read;
pub use record::{Answers, BadLineWhy, CertificateLine, MadeBody, MadeRecord, Record};
pub use record_text::{CertificateLines, Kind, Place, RecordText};
pub use round_trip::written_is_read;
pub use splitting::split;
pub use writing::{WriteFault, write, write_header, write_list_record, write_zone_record};
