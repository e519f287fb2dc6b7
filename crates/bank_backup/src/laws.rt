//! Laws of the header and of a section that was stored.

ghost use Rattle.bank_backup.specs.Header.{HeadersSayTheirFields};
ghost use Rattle.bank_backup.specs.Storing.{NamedSectionsAreFound};
ghost use Rattle.bank_backup.specs.Written.{ClearedHeadersNameNone, HeadersNameTheirSpan};

/// A written header is one sector, the array's, and names its span and no other.
pub fn headers_name_their_span()
    ensures { HeadersNameTheirSpan }
{}

/// A cleared header names no section.
pub fn cleared_headers_name_none()
    ensures { ClearedHeadersNameNone }
{}

/// A written header says what was written, whose it is, where and how long.
pub fn headers_say_their_fields()
    ensures { HeadersSayTheirFields }
{}

/// A slot whose section was stored and named holds the section of that span in each image that a stop may leave, with the
/// bytes that were stored.
pub fn named_sections_are_found()
    ensures { NamedSectionsAreFound }
{}
