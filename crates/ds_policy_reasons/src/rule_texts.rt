//! What is told of a rule, and how it is mended.

/// `RuleCause::NotTable`.
pub(crate) const RULE_NOT_TABLE: &str = "\
The rule is no table. Write `[[rule]]`, and below it `process`, `address`,
`right` and `page`.
";

/// `RuleCause::OtherKey`.
pub(crate) const RULE_OTHER_KEY: &str = "\
The rule has a key besides `process`, `address`, `right`, `page`, `give` and
`until`. Mend its name or leave it out.
";

/// `RuleCause::UntilOfVersion1`.
pub(crate) const UNTIL_OF_VERSION_1: &str = "\
`until` needs version 2. Write `version = 2` as the first line of the
policy, or leave `until` out: the right then never ends.
";

/// `RuleCause::BadProcess`.
pub(crate) const RULE_BAD_PROCESS: &str = "\
`process` is missing, or not the number of a process of the policy.
Processes count from 1 in the order of their `[[process]]`: write
`process = 1`.
";

/// `RuleCause::BadAddress`.
pub(crate) const RULE_BAD_ADDRESS: &str = "\
`address` is missing, or no multiple of 0x1000 below 0x80000000. Write where
a page begins, without quotation marks: `address = 0x00400000`, not
0x00400004.
";

/// `RuleCause::BadRight`.
pub(crate) const RULE_BAD_RIGHT: &str = "\
`right` is missing, or none of `\"none\"`, `\"read\"` and `\"write\"`. Write
`right = \"read\"` for loads and fetches, or `right = \"write\"` for stores too.
";

/// `RuleCause::PageOfNone`.
pub(crate) const PAGE_OF_NONE: &str = "\
`right = \"none\"` stands with a `page` or a `give`. Leave both out, or write
the right that the page is to be granted with: `right = \"read\"`.
";

/// `RuleCause::UntilOfNone`.
pub(crate) const UNTIL_OF_NONE: &str = "\
`right = \"none\"` stands with an `until`, and there is no right that could
end. Leave `until` out, or write the right that is to end, and its page:
`right = \"read\"`.
";

/// `RuleCause::BadPage`.
pub(crate) const BAD_PAGE: &str = "\
`page` is missing, or no `[[page]]` has this name. Write the `name` of a
page of the policy, letter by letter: `page = \"code\"`.
";

/// `RuleCause::BadGive`.
pub(crate) const RULE_BAD_GIVE: &str = "\
`give` is neither true nor false. Write `give = true`, without quotation
marks, or leave it out.
";

/// `RuleCause::BadUntil`.
pub(crate) const BAD_UNTIL: &str = "\
`until` is no integer from 1 to 1000000000. It is the time in ticks at which
the right ends, without quotation marks: `until = 5000`. Leave it out where
the right is not to end.
";

/// `RuleCause::SamePlace`.
pub(crate) const SAME_PLACE: &str = "\
An earlier rule has this process and this address. Leave one of the two out:
a process has one entry at an address.
";

/// `RuleCause::TooManyRules`.
pub(crate) const TOO_MANY_RULES: &str = "\
This is the 257th rule of its process, and a process has 256 at most, those
of right `\"none\"` among them. Leave out what it need not touch.
";

/// `RuleCause::FifthRegion`.
pub(crate) const FIFTH_REGION: &str = "\
The rule is in a fifth region of its process. A region has 4 MiB,
`address / 0x400000`, and a process has four at most. Move the page to an
address in a region that the process has already.
";
