//! The forms of frames, a row for each. A further one is a row here and one of `specs/Forms.antt`, a case of
//! `specs/Frame.antt`, and its two lines in `proofs/FormLemmas.antt`.
ghost use Rattle.std.specs.Prelude.{◌≡◌, map};
ghost use Rattle.smap_frames.specs.Forms as spec;
ghost use Rattle.smap_frames.specs.FormView.{form_in};

/// A form of frames: what stands before a frame's position, and what stands behind it.
#[derive(Clone, Copy)]
pub(crate) struct Form<'a> {
    /// Whether the line begins with spaces and `at `. If not, no line of the form begins so.
    pub(crate) behind_at: bool,
    /// Whether a name, or nothing, stands before `opening`.
    pub(crate) named: bool,
    /// The byte by which the position is found: it stands behind the last space and what `opening` has
    /// behind its own last space, or, if this is another byte, behind the first one.
    pub(crate) mark: u8,
    /// What stands right before the position.
    pub(crate) opening: &'a [u8],
    /// What stands right behind it.
    pub(crate) closing: &'a [u8],
}

/// A form of lines that begin with spaces and `at `.
fn behind_at<'a>(named: bool, opening: &'a [u8], closing: &'a [u8]) -> Form<'a>
    ensures { form_in result ≡ spec.behind_at named opening.now closing.now }
{
    Form {
        behind_at: true,
        named,
        mark: b' ',
        opening,
        closing,
    }
}

/// A form of other lines.
fn otherwise<'a>(mark: u8, opening: &'a [u8], closing: &'a [u8]) -> Form<'a>
    ensures { form_in result ≡ spec.otherwise mark opening.now closing.now }
{
    Form {
        behind_at: false,
        named: true,
        mark,
        opening,
        closing,
    }
}

/// The forms, in the order in which they are tried.
pub(crate) fn forms<'a>() -> [Form<'a>; 4]
    ensures { map form_in result ≡ spec.forms }
{
    [
        // `NAME (URL:LINE:COLUMN)`
        behind_at(true, b" (", b")"),
        // `URL:LINE:COLUMN`
        behind_at(false, b"", b""),
        // `async URL:LINE:COLUMN`
        behind_at(false, b"async ", b""),
        // `NAME@URL:LINE:COLUMN`
        otherwise(b'@', b"@", b""),
    ]
}
