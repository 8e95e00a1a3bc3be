//! What the payloads of a journal's log say.

ghost use Rattle.std.specs.Prelude.{◌≡◌, ◌≤◌, ◌+◌, List, ℕ, map, length};
ghost use Rattle.tq_field.specs.Places.{number_at};
ghost use Rattle.tq_model.specs.DeviceForm as form;
ghost use Rattle.tq_model.specs.DeviceForm.{journal_with, journal_after, decision_at};
ghost use Rattle.tq_site.specs.Payloads.{decision_view, journal_view, option_view};

use tq_field::get_u32;

/// The first byte of a payload that raises the epoch.
const EPOCH: u8 = 1;

/// The first byte of a payload that decides.
const DECISION: u8 = 2;

/// The payload after which nothing is decided.
const NO_DECISION: u8 = 3;

/// The decision of a commit over several spaces.
#[derive(Clone, Copy, Debug)]
pub(crate) struct Decision {
    pub(crate) epoch: u32,
    pub(crate) number: u32,
}

/// What a journal says.
#[derive(Clone, Copy, Debug)]
pub(crate) struct Journal {
    pub(crate) epoch: u32,
    pub(crate) decision: Option<Decision>,
}

/// The number in the 4 bytes from this place on, which has to have them.
pub(crate) fn number(bytes: &[u8], at: usize) -> u32
    requires { at + 4 ≤ length bytes.now }
    ensures { result ≡ number_at at 4 bytes.now }
{
    get_u32(bytes, at).unwrap_or(0)
}

/// The decision in the 8 bytes from this place on, which has to have them.
pub(crate) fn decision_at(bytes: &[u8], at: usize) -> Decision
    requires { at + 8 ≤ length bytes.now }
    ensures { decision_view result ≡ decision_at at bytes.now }
{
    Decision {
        epoch: number(bytes, at),
        number: number(bytes, at + 4),
    }
}

/// What a journal says after this payload; `None` exactly where it is not spelt.
fn journal_with(journal: Journal, payload: &[u8]) -> Option<Journal>
    ensures { option_view result ≡ journal_with (journal_view journal) payload.now }
{
    let kind = *payload.first()?;
    let bytes = &payload[1..];
    match (kind, bytes.len()) {
        (EPOCH, 4) => Some(Journal {
            epoch: number(bytes, 0),
            ..journal
        }),
        (DECISION, 8) => Some(Journal {
            decision: Some(decision_at(bytes, 0)),
            ..journal
        }),
        (NO_DECISION, 0) => Some(Journal {
            decision: None,
            ..journal
        }),
        _ => None,
    }
}

/// What a journal says after these payloads; `None` exactly where one of them is not spelt.
pub(crate) fn journal_after(journal: Journal, payloads: &[Vec<u8>]) -> Option<Journal>
    ensures { option_view result ≡ journal_after (map (λ v. v.items) payloads.now) (journal_view journal) }
{
    let mut journal = journal;
    for payload in payloads {
        journal = journal_with(journal, payload)?;
    }
    Some(journal)
}
