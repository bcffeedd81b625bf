//! What a call came to, as C sees it.
ghost use Rattle.std.specs.Prelude.{◌≡◌};
ghost use Rattle.smap_c_answers.specs.Codes.{code_name};

/// It is done.
pub const OK: u32 = 0;

/// The map or the mappings text has a fault.
pub const REFUSED: u32 = 1;

/// The base is no URL.
pub const NOT_URL: u32 = 2;

/// The limits are too large.
pub const LIMITS: u32 = 3;

/// Out of memory.
pub const MEMORY: u32 = 4;

/// The handle is closed.
pub const CLOSED: u32 = 5;

/// There is no such thing: no mapping there, no URL, no content, no name, no file.
pub const NONE: u32 = 6;

/// The number is not below the count, or no mapping has such numbers.
pub const RANGE: u32 = 7;

/// The URLs of the sources take more bytes than they may.
pub const URL_BYTES: u32 = 8;

/// What should be base64 isn't.
pub const NOT_BASE64: u32 = 9;

/// The text isn't UTF-8.
pub const NOT_UTF8: u32 = 10;

/// A map that is made would list more sources, or use more names, than the limits allow.
pub const TOO_MANY: u32 = 11;

/// The name of a code, or nothing for a number that is none.
pub fn code_name(code: u32) -> &'static str
    ensures { result.now ≡ code_name code }
{
    match code {
        OK => "done",
        REFUSED => "refused",
        NOT_URL => "not a URL",
        LIMITS => "limits too large",
        MEMORY => "out of memory",
        CLOSED => "closed handle",
        NONE => "nothing there",
        RANGE => "number out of range",
        URL_BYTES => "too many bytes of URLs",
        NOT_BASE64 => "not base64",
        NOT_UTF8 => "not UTF-8",
        TOO_MANY => "too many sources or names",
        _ => "",
    }
}
