//! What a frame means.

ghost use Rattle.std.specs.Prelude.{◌≡◌, Some};
ghost use Rattle.code_table.specs.Tables.{case_of};
ghost use Rattle.code_table.specs.Texts.{function_of, matrix_of, meaning_of, may_stand};

use crate::case::Case;
use crate::name::Name;

/// What a frame means in one case.
#[derive(Drop)]
pub enum Meaning {
    /// The matrix of this name goes into the line.
    Matrix(Name),
    /// Later frames have their second meaning.
    Shift,
    /// Later frames have their first meaning.
    Unshift,
    /// The line is sent to be cast.
    Elevate,
    /// Nothing.
    Return,
    /// A spaceband goes into the line.
    Spaceband,
    /// A thin space goes into the line.
    Thin,
    /// An en space goes into the line.
    En,
    /// An em space goes into the line.
    Em,
    /// Later matrices are on the upper rail.
    Upper,
    /// Later matrices are on the lower rail.
    Lower,
    /// The line stands at the left.
    QuadLeft,
    /// The line stands in the middle.
    QuadCenter,
    /// The line stands at the right.
    QuadRight,
    /// Nothing.
    Ignore,
}

/// The function with this name.
#[tactic(auto, unfolding(crate::specs::Texts::function_of))]
fn function_of(text: &str) -> Option<Meaning>
    ensures { result ≡ function_of text.now }
{
    match text {
        "@shift" => Some(Meaning::Shift),
        "@unshift" => Some(Meaning::Unshift),
        "@elevate" => Some(Meaning::Elevate),
        "@return" => Some(Meaning::Return),
        "@spaceband" => Some(Meaning::Spaceband),
        "@thin" => Some(Meaning::Thin),
        "@en" => Some(Meaning::En),
        "@em" => Some(Meaning::Em),
        "@upper" => Some(Meaning::Upper),
        "@lower" => Some(Meaning::Lower),
        "@quadleft" => Some(Meaning::QuadLeft),
        "@quadcenter" => Some(Meaning::QuadCenter),
        "@quadright" => Some(Meaning::QuadRight),
        "@ignore" => Some(Meaning::Ignore),
        _ => None,
    }
}

/// The matrix of this name, where a matrix may have it.
#[tactic(auto, unfolding(crate::specs::Texts::matrix_of))]
fn matrix_of(text: &str) -> Option<Meaning>
    ensures { result ≡ matrix_of text.now }
{
    let name = Name::new(text.as_bytes())?;
    Some(Meaning::Matrix(name))
}

impl Meaning {
    /// What a text of a code table means: the function or the matrix of this name.
    #[tactic(auto, unfolding(crate::specs::Texts::meaning_of))]
    pub(crate) fn of(text: &str) -> Option<Meaning>
        ensures { result ≡ meaning_of text.now }
    {
        match function_of(text) {
            Some(function) => Some(function),
            None => matrix_of(text),
        }
    }

    /// The same meaning once more. It takes no memory.
    pub(crate) fn copy(&self) -> Meaning
        ensures { result ≡ self.now }
    {
        match self {
            Meaning::Matrix(name) => Meaning::Matrix(name.copy()),
            Meaning::Shift => Meaning::Shift,
            Meaning::Unshift => Meaning::Unshift,
            Meaning::Elevate => Meaning::Elevate,
            Meaning::Return => Meaning::Return,
            Meaning::Spaceband => Meaning::Spaceband,
            Meaning::Thin => Meaning::Thin,
            Meaning::En => Meaning::En,
            Meaning::Em => Meaning::Em,
            Meaning::Upper => Meaning::Upper,
            Meaning::Lower => Meaning::Lower,
            Meaning::QuadLeft => Meaning::QuadLeft,
            Meaning::QuadCenter => Meaning::QuadCenter,
            Meaning::QuadRight => Meaning::QuadRight,
            Meaning::Ignore => Meaning::Ignore,
        }
    }

    /// The case that it selects for the frames after it, where it is a case code.
    pub fn selects(&self) -> Option<Case>
        ensures { result ≡ case_of (Some self.now) }
    {
        match self {
            Meaning::Shift => Some(Case::Shift),
            Meaning::Unshift => Some(Case::Unshift),
            _ => None,
        }
    }

    /// Whether the two may be the columns of one entry: where one is a case code, so is the other, and they are the same.
    #[tactic(auto, unfolding(crate::specs::Texts::may_stand))]
    pub(crate) fn may_stand(unshift: &Meaning, shift: &Meaning) -> bool
        ensures { result ≡ may_stand unshift.now shift.now }
    {
        match (unshift.selects(), shift.selects()) {
            (None, None)
            | (Some(Case::Unshift), Some(Case::Unshift))
            | (Some(Case::Shift), Some(Case::Shift)) => true,
            _ => false,
        }
    }
}
