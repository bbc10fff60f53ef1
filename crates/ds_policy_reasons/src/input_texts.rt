//! What is told of a line of an input, and how it is mended.

/// `InputCause::CarriageReturn`.
pub(crate) const CARRIAGE_RETURN: &str = "\
The line has a carriage return. Lines end in a line feed alone: save the
file with the line ends of Unix, or take the carriage returns out by
`tr -d '\\r'`.
";

/// `InputCause::Tab`.
pub(crate) const TAB: &str = "\
The line has a tab. Words stand one blank apart: write one blank in its
place, as in `5 key 0 41`.
";

/// `InputCause::BlankAtStart`.
pub(crate) const BLANK_AT_START: &str = "\
The line begins with a blank. An event begins with its time and a comment
with `#`, in the first column: take out what stands before it.
";

/// `InputCause::BlankAtEnd`.
pub(crate) const BLANK_AT_END: &str = "\
The line ends with a blank. Take it out: the last word ends the line.
";

/// `InputCause::TwoBlanks`.
pub(crate) const TWO_BLANKS: &str = "\
Two blanks stand together. Words stand one blank apart: write `5 key 0 41`,
not `5  key 0 41`.
";

/// `InputCause::BadTime`.
pub(crate) const BAD_TIME: &str = "\
The first word is no time. A line begins with 1 to 10 decimal digits, at
most 1000000000, such as `7 stop 1`. Put `#` before a line that is to be
kept for later.
";

/// `InputCause::UnknownEvent`.
pub(crate) const UNKNOWN_EVENT: &str = "\
The second word is no event. It is one of `key`, `grant`, `narrow`,
`revoke`, `drop`, `resume` and `stop`, in lower case.
";

/// `InputCause::WordCount`.
pub(crate) const WORD_COUNT: &str = "\
A word is missing, or there is one too many. After its time an event is
`key LINE BYTES`; `grant P ADDRESS PAGE RIGHT`, perhaps with `give` after
it; `narrow P ADDRESS`, and so `revoke` and `drop`; or `resume P`, and so
`stop`.
";

/// `InputCause::BadProcess`.
pub(crate) const BAD_PROCESS: &str = "\
The word after the event is no process number, which is 1 to 10 decimal
digits, at most 4294967295. Processes count from 1 in the order of the
policy's `[[process]]`: write `7 stop 1`.
";

/// `InputCause::BadAddress`.
pub(crate) const BAD_ADDRESS: &str = "\
The address is not eight hexadecimal digits. Write all eight, with zeros in
front and without `0x`: `00410000` for 0x410000.
";

/// `InputCause::UnknownPage`.
pub(crate) const UNKNOWN_PAGE: &str = "\
The policy has no page of this name. Write the `name` of one of its
`[[page]]`, letter by letter: `7 grant 1 00410000 data read` where there is
`name = \"data\"`.
";

/// `InputCause::BadRight`.
pub(crate) const BAD_RIGHT: &str = "\
The right is neither `read` nor `write`. Write
`7 grant 1 00410000 data read`. A right is taken away by `revoke`, not by a
grant.
";

/// `InputCause::BadGive`.
pub(crate) const BAD_GIVE: &str = "\
The word after the right is not `give`. Write `give` there where the process
may give the page on, and nothing where it may not.
";

/// `InputCause::BadLine`.
pub(crate) const BAD_LINE: &str = "\
The console line is not one digit from 0 to 3. Write `5 key 0 41` for line
0, which is the `line` of a `[[process]]` of the policy.
";

/// `InputCause::BadBytes`.
pub(crate) const BAD_BYTES: &str = "\
The bytes are not 1 to 256 pairs of hexadecimal digits with no blank between
them. Write two digits for each character: `5 key 0 4869` brings in `Hi`.
";

/// `InputCause::EarlierTime`.
pub(crate) const EARLIER_TIME: &str = "\
The line is due earlier than an event before it. Times never fall from line
to line: move the line up to where its time belongs, or give it a later
time.
";

/// `InputCause::TooManyEvents`.
pub(crate) const TOO_MANY_EVENTS: &str = "\
This is the 4,097th event, and an input has 4,096 at most. Write characters
of one time and one console line in one `key` line: 64 at most, since no
more come in at a boundary, all lines together, and the rest are lost.
";
