//! What holds of what is embedded. Each law is the contract of a function that does nothing.
ghost use Rattle.smap_view_page.specs.Embedding.{NothingEndsAnElement};

/// In an embedded text no element of HTML begins or ends: it has no `<`.
pub fn nothing_ends_an_element()
    ensures { NothingEndsAnElement }
{}
