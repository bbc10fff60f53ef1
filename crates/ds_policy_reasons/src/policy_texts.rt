//! What is told of a policy, of a process and of a page, and how it is mended.

/// `PolicyReason::NotToml`.
pub(crate) const NOT_TOML: &str = "\
The text is no TOML document in UTF-8, such as `version =`, a name whose
quotation marks are not closed, or a key that stands twice. Numbers may be
written as 0x00400000.
";

/// `PolicyReason::OtherKey`.
pub(crate) const OTHER_KEY: &str = "\
A root key is none of `version`, `frames`, `rate`, `process`, `page` and
`rule`. Mend its name or leave it out. Keys that follow `[[process]]`,
`[[page]]` or `[[rule]]` belong to it, so root keys stand first.
";

/// `PolicyReason::BadVersion`.
pub(crate) const BAD_VERSION: &str = "\
`version` is missing, or neither 1 nor 2. Write `version = 1` as the first
line, or `version = 2` where a rule has an `until`.
";

/// `PolicyReason::BadFrames`.
pub(crate) const BAD_FRAMES: &str = "\
`frames` is missing, or no integer from 1 to 1024. Write `frames = 16`, or
more, so that there are at least as many as there are `[[page]]`.
";

/// `PolicyReason::BadRate`.
pub(crate) const BAD_RATE: &str = "\
`rate` is neither 0 nor an integer from 3 to 15. Leave it out where there is
to be no clock, or write `rate = 8`.
";

/// `PolicyReason::ProcessCount`.
pub(crate) const PROCESS_COUNT: &str = "\
`process` is missing, is no array of tables, or has more than 100. Write 1
to 100 `[[process]]`, each with `start` and `line`.
";

/// `PolicyReason::PageCount`.
pub(crate) const PAGE_COUNT: &str = "\
`page` is no array of tables, or there are more pages than `frames` says.
Write fewer `[[page]]`, or a greater `frames`, which is at most 1024.
";

/// `PolicyReason::RuleCount`.
pub(crate) const RULE_COUNT: &str = "\
`rule` is no array of tables, or has more than 999. Write at most 999
`[[rule]]`, or none.
";

/// `ProcessCause::NotTable`.
pub(crate) const PROCESS_NOT_TABLE: &str = "\
The process is no table. Write `[[process]]`, and below it
`start = 0x00400000` and `line = 0`.
";

/// `ProcessCause::OtherKey`.
pub(crate) const PROCESS_OTHER_KEY: &str = "\
The process has a key besides `start` and `line`. Mend its name or leave it
out. A process has no name: it is numbered by its place.
";

/// `ProcessCause::BadStart`.
pub(crate) const BAD_START: &str = "\
`start` is missing, or no integer from 0 to 4294967295. It is the address of
the first instruction, without quotation marks: `start = 0x00400000`.
";

/// `ProcessCause::BadLine`.
pub(crate) const PROCESS_BAD_LINE: &str = "\
`line` is missing, or no integer from 0 to 3. It is the console line that
the process writes to: `line = 0`.
";

/// `PageCause::NotTable`.
pub(crate) const PAGE_NOT_TABLE: &str = "\
The page is no table. Write `[[page]]`, and below it `name = \"data\"`.
";

/// `PageCause::OtherKey`.
pub(crate) const PAGE_OTHER_KEY: &str = "\
The page has a key besides `name`, `source` and `part`. Mend its name or
leave it out.
";

/// `PageCause::BadName`.
pub(crate) const BAD_NAME: &str = "\
`name` is missing, or is not 1 to 16 characters from `a` to `z` and `0` to
`9`. Write `name = \"data\"`, with no upper case, no blank and no sign.
";

/// `PageCause::BadSource`.
pub(crate) const BAD_SOURCE: &str = "\
`source` is missing beside `part`, or is not 1 to 64 letters, digits and
`._-/`. Write `source = \"one.s\"` with `part = 0`, or leave both out for a
page of zeros.
";

/// `PageCause::BadPart`.
pub(crate) const BAD_PART: &str = "\
`part` is missing beside `source`, or no integer from 0 to 15. Write
`part = 0` for the first 4,096 bytes of the image, `part = 1` for the next.
";

/// `PageCause::SameName`.
pub(crate) const SAME_NAME: &str = "\
An earlier page has this name. Give each page a name of its own. Two pages
may have one `source` and one `part`.
";
