//! The words of notes, as they are printed.

ghost use Rattle.std.specs.Prelude.{◌≡◌, Some};
ghost use Rattle.rehearse_command.specs.Notes.{note_ballot, note_text, note_word};

use ballots::Ballot;
use node_core::Note;
use std::fmt;

/// The word of a note.
fn word_of(note: Note) -> &'static str
    ensures { result.now ≡ note_word note }
{
    match note {
        Note::Began { .. } => "began",
        Note::Nothing { .. } => "nothing",
        Note::Proposed { .. } => "proposed",
        Note::Idle => "idle",
        Note::GaveUp { .. } => "gave-up",
        Note::Promised { .. } => "promised",
        Note::Silent => "silent",
        Note::Nacked { .. } => "nacked",
        Note::VotedAgain { .. } => "voted-again",
        Note::Voted { .. } => "voted",
        Note::Stale => "stale",
        Note::Overtaken { .. } => "overtaken",
        Note::Repeated => "repeated",
        Note::Counted { .. } => "counted",
        Note::Denied { .. } => "denied",
        Note::Settled => "settled",
        Note::Heard { .. } => "heard",
        Note::Recalled { .. } => "recalled",
        Note::Blank => "blank",
    }
}

/// The ballot that stands behind the word, if any.
fn ballot_of(note: Note) -> Option<Ballot>
    ensures { result ≡ note_ballot note }
{
    match note {
        Note::Began { ballot } => Some(ballot),
        Note::Nothing { ballot } => Some(ballot),
        Note::Proposed { ballot } => Some(ballot),
        Note::Idle => None,
        Note::GaveUp { ballot } => Some(ballot),
        Note::Promised { ballot } => Some(ballot),
        Note::Silent => None,
        Note::Nacked { promised } => Some(promised),
        Note::VotedAgain { ballot } => Some(ballot),
        Note::Voted { ballot } => Some(ballot),
        Note::Stale => None,
        Note::Overtaken { ballot } => Some(ballot),
        Note::Repeated => None,
        Note::Counted { ballot } => Some(ballot),
        Note::Denied { promised } => Some(promised),
        Note::Settled => None,
        Note::Heard { ballot } => Some(ballot),
        Note::Recalled { ballot } => Some(ballot),
        Note::Blank => None,
    }
}

/// What a station did in a step, as `began 1.1`.
#[derive(Clone, Copy)]
pub struct NoteText(pub Note);

impl fmt::Display for NoteText {
    ghost output = { λ n. Some (note_text n.0) };

    fn fmt<W: fmt::Write>(&self, f: &mut fmt::Formatter<W>) -> fmt::Result {
        let word = word_of(self.0);
        match ballot_of(self.0) {
            // The ballot as it is shown, in one piece: of a rehearsal this is the line that is written most.
            Some(ballot) => write!(f, "{word} {}.{}", ballot.round(), ballot.owner().get()),
            None => f.write_str(word),
        }
    }
}
