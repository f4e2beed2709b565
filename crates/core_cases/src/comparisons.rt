//! What two journals show of a session, or of the sessions of an application that share one instance.
ghost use Rattle.std.specs.Prelude.{IfOk};
ghost use Rattle.native_tas.specs.Table.{entries};
ghost use Rattle.session_compare.specs.Pairs.{CanBeCompared};

use anyhow::{Context, Result, bail};
use audit::read_boots_can_be_checked;
use compare_model::Compared;
use journal_bytes::{ReadJournal, read_journal};
use native_tas::Natives;
use session_compare::{compare, compare_groups};
use std::alloc::{AllocError, Global};
use uuid::Uuid;

/// The most bytes that journals have here.
const MOST_BYTES: usize = 1 << 24;

/// The journal at the front of bytes.
#[tactic(auto, using(crate::proofs::Journals::can_be_compared))]
fn read_front(alloc: Global, natives: &Natives, bytes: &[u8]) -> Result<ReadJournal>
    ensures { IfOk result (CanBeCompared (entries natives.now)) }
{
    read_boots_can_be_checked();
    if bytes.len() > MOST_BYTES {
        bail!("the journals are too long");
    }
    Ok(read_journal(alloc, bytes, natives.uuids().as_slice())?)
}

/// What they show of the session of this number, or of the application of this UUID.
fn compared(
    alloc: Global,
    natives: &Natives,
    one: &ReadJournal,
    two: &ReadJournal,
    subject: &str,
) -> Result<Compared>
    requires one { CanBeCompared (entries natives.now) one.now }
    requires two { CanBeCompared (entries natives.now) two.now }
{
    match subject.parse::<u32>() {
        Ok(session) => Ok(compare(alloc, one, two, natives, session)?),
        Err(_) => {
            let uuid = Uuid::parse_str(subject)?;
            Ok(compare_groups(alloc, one, two, natives, uuid)?)
        }
    }
}

/// The line of what they show, as the word `compare` writes it.
fn line_of(alloc: Global, compared: Compared) -> Result<String, AllocError> {
    match compared {
        Compared::Illegal { journal, at } => format!(in alloc; "illegal {journal} {at}\n"),
        Compared::Absent(journal) => format!(in alloc; "absent {journal}\n"),
        Compared::Other => String::from_str(alloc, "other\n"),
        Compared::Events(at) => format!(in alloc; "events {at}\n"),
        Compared::Same(count) => format!(in alloc; "same {count}\n"),
    }
}

/// What the two journals of a case tell, whose name has the number of a session or the UUID of an application behind it.
pub(crate) fn comparison_told(
    alloc: Global,
    natives: &Natives,
    name: &str,
    digits: &str,
) -> Result<Vec<u8>> {
    let (_name, subject) = name.split_once(' ').context("reading whose journals")?;
    let digits = digits.replace(alloc, "\n", "")?;
    let bytes = hex::decode(alloc, digits.as_bytes())?;
    let one = read_front(alloc, natives, bytes.as_slice())?;
    let behind = bytes.as_slice().get(one.used as usize..).unwrap_or(&[]);
    let two = read_front(alloc, natives, behind)?;
    let compared = compared(alloc, natives, &one, &two, subject)?;
    Ok(line_of(alloc, compared)?.into_bytes())
}
