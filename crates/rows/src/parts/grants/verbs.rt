//! What lines about grants ask for.

use crate::parts::verbs::{Row, Verb};

/// A call on the grants.
#[derive(Clone, Copy)]
pub enum Call {
    Grant,
    Give,
    Take,
    Drop,
    Revoke,
    Narrow,
    End,
    Split,
    Expire,
}

/// A step that is no call.
#[derive(Clone, Copy)]
pub enum Step {
    Write,
    Enter,
    Fill,
    Entry,
    Addresses,
    Byte,
    Frame,
    Space,
    Translation,
    Next,
    Due,
    Decide,
}

/// The words, and how many numbers stand after each. Beside calls these are
///
///     start PROCESSES FRAMES NAMED    anew, with no entries
///     begin POLICY                    anew, with the entries of a policy, whose text has blanks in
///                                     place of the ends of its lines
///     write PAGE BYTE                 fills the page's frame, which no other may share
///     enter FIRST LAST                these processes come on the processor, one after the other
///     fill PROCESS ADDRESS            the process comes on the processor, and a miss of it there
///     entry PROCESS ADDRESS           what is granted there, and where it was shared from
///     addresses PROCESS               those of all its entries, in the order in which they came
///     byte PAGE                       what the page's frame is filled with, or 256 where its bytes differ
///     frame PAGE                      the number of its frame among those of pages
///     space PROCESS                   the number of its address space
///     translation PROCESS ADDRESS     what the buffer answers it
///     next                            when the first of all rights ends
///     due PROCESS TIME                its first entry whose right has ended by then
///     decide PROCESS fetch|load|store byte|half|word|part ADDRESS
///                                     the page and offset of an access, or the rule and code of its denial
///
/// and the calls
///
///     grant PROCESS ADDRESS PAGE read|write keep|give RULE
///     give CALLER ADDRESS RECEIVER TO MODE
///     take CALLER PROCESS ADDRESS
///     drop PROCESS ADDRESS own|command
///     revoke PROCESS ADDRESS RULE
///     narrow PROCESS ADDRESS
///     end PROCESS
///     split PROCESS ADDRESS
///     expire TIME                     or TIME HIGH: so many times 2^32 later
pub static GRANTS: [Row<Verb>; 23] = [
    ("start", 3, 3, Verb::Start),
    ("begin", 0, 0, Verb::Begin),
    ("write", 2, 2, Verb::Step(Step::Write)),
    ("enter", 2, 2, Verb::Step(Step::Enter)),
    ("fill", 2, 2, Verb::Step(Step::Fill)),
    ("entry", 2, 2, Verb::Step(Step::Entry)),
    ("addresses", 1, 1, Verb::Step(Step::Addresses)),
    ("byte", 1, 1, Verb::Step(Step::Byte)),
    ("frame", 1, 1, Verb::Step(Step::Frame)),
    ("space", 1, 1, Verb::Step(Step::Space)),
    ("translation", 2, 2, Verb::Step(Step::Translation)),
    ("next", 0, 0, Verb::Step(Step::Next)),
    ("due", 2, 2, Verb::Step(Step::Due)),
    ("decide", 4, 4, Verb::Step(Step::Decide)),
    ("grant", 6, 6, Verb::Call(Call::Grant)),
    ("give", 5, 5, Verb::Call(Call::Give)),
    ("take", 3, 3, Verb::Call(Call::Take)),
    ("drop", 3, 3, Verb::Call(Call::Drop)),
    ("revoke", 3, 3, Verb::Call(Call::Revoke)),
    ("narrow", 2, 2, Verb::Call(Call::Narrow)),
    ("end", 1, 1, Verb::Call(Call::End)),
    ("split", 2, 2, Verb::Call(Call::Split)),
    ("expire", 1, 2, Verb::Call(Call::Expire)),
];
