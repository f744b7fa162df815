//! Laws of joined texts. Each function does nothing; its contract is the law, and it is proved.

ghost use Rattle.addr2line_paths.specs.FilePathLaws.{RootedTextReplacesPath, Utf8TextIsUnchanged};

/// A text with a root replaces whatever path it is joined to.
pub fn rooted_text_replaces_path()
    ensures { RootedTextReplacesPath }
{}

/// In texts that are UTF-8 nothing is replaced before they are joined.
pub fn utf8_text_is_unchanged()
    ensures { Utf8TextIsUnchanged }
{}
