//! Each law is the contract of a function with an empty body.
ghost use Rattle.std.specs.Prelude.{◌≡◌, ◌≤◌, ◌<◌, ◌+◌, ◌++◌, ℕ, Bool, List, true, false, Ok, length, map, replicate, reverse};
ghost use Rattle.ds_policy.specs.PolicyFacts.{IsGoodPolicy};
ghost use Rattle.ds_policy.specs.Value.{PolicyValue};
ghost use Rattle.ds_pagemap.specs.Inputs.{Sources, inputs, inputs_under};
ghost use Rattle.ds_pagemap.specs.Machine.{State};
ghost use Rattle.ds_pagemap.specs.Run.{after, Reaches};
ghost use Rattle.ds_pagemap_laws.specs.Lawful.{IsLawful};
ghost use Rattle.ds_promise.specs.Whole.{HasWholePages};
ghost use Rattle.ds_alone.specs.Alone.{IsAlone, NothingWaits, SeemsAlike, StandsAlone, is_given_nothing};
ghost use Rattle.ds_alone.specs.Consoles.{HasOwnLine, has_own_line, console_of};
ghost use Rattle.ds_alone.specs.Deeds.{deeds, deeds_alone, asks_nothing_alone, AsksNothing, stops_alone, puts, IsFront, AreFronts};
ghost use Rattle.ds_alone.specs.Log.{said_of, told_by, ShowsMore, ShowsAlone};
ghost use Rattle.ds_alone.specs.Tests.{GoesRound, is_alone, nobody_may_give, holdings};
ghost use Rattle.ds_alone.specs.Touched.{doing, doings, is_given_nothing_by, quiet_alone, IsQuietAlone, puts_by};

/// What a process does alone depends on its registers, its entries and their pages alone; and so do
/// what it asks, and whether it is quiet. In each law here `listens` says whether the process may ask
/// for characters, of which none comes to its line then; where it may not, they come as they like.
pub fn what_is_done_alone_depends_on_nothing_else()
    ensures deeds { (listens : Bool) (p k : ℕ) (m t : State) → SeemsAlike p m t →
        NothingWaits listens p m → NothingWaits listens p t → AsksNothing listens p m →
        deeds_alone p k m ≡ deeds_alone p k t }
    ensures asks { (listens : Bool) (p k : ℕ) (m t : State) → SeemsAlike p m t →
        NothingWaits listens p m → NothingWaits listens p t →
        asks_nothing_alone listens p k m ≡ true → asks_nothing_alone listens p k t ≡ true }
    ensures quiet { (listens : Bool) (p k : ℕ) (m t : State) → SeemsAlike p m t →
        NothingWaits listens p m → NothingWaits listens p t → asks_nothing_alone listens p k m ≡ true →
        quiet_alone p k m ≡ true → quiet_alone p k t ≡ true }
{}

/// A process that shares nothing, and asks nothing, does in a run what it does alone, as far as the
/// run goes: in a run that never touches, down to its registers; and where it is quiet, in each run,
/// but for its registers.
pub fn a_process_does_in_a_run_what_it_does_alone()
    ensures same { (listens : Bool) (p n k : ℕ) (m : State) → StandsAlone listens p m → AsksNothing listens p m →
        is_given_nothing p n k m ≡ true →
        deeds p n k m ≡ deeds_alone p (length (deeds p n k m)) m }
    ensures front { (listens : Bool) (p n k j : ℕ) (m : State) → StandsAlone listens p m → AsksNothing listens p m →
        is_given_nothing p n k m ≡ true → length (deeds p n k m) ≤ j →
        IsFront (deeds p n k m) (deeds_alone p j m) }
    ensures touched { (listens : Bool) (p n : ℕ) (choices : List Bool) (m : State) → StandsAlone listens p m → AsksNothing listens p m →
        IsQuietAlone p m → is_given_nothing_by p n choices m ≡ true →
        doings p n choices m ≡ map doing (deeds_alone p (length (doings p n choices m)) m) }
{}

/// So it can't tell who else is there: of what it does in two runs, unit by unit, one is a front of
/// the other, and so it is with what it puts.
pub fn nobody_can_tell_who_else_is_there()
    ensures deeds { (listens : Bool) (p n k o j : ℕ) (m t : State) → StandsAlone listens p m → StandsAlone listens p t → SeemsAlike p m t →
        AsksNothing listens p m → is_given_nothing p n k m ≡ true → is_given_nothing p o j t ≡ true →
        AreFronts (deeds p n k m) (deeds p o j t) }
    ensures puts { (listens : Bool) (p n k o j : ℕ) (m t : State) → StandsAlone listens p m → StandsAlone listens p t → SeemsAlike p m t →
        AsksNothing listens p m → is_given_nothing p n k m ≡ true → is_given_nothing p o j t ≡ true →
        AreFronts (puts (deeds p n k m)) (puts (deeds p o j t)) }
    ensures touched { (listens : Bool) (p n o : ℕ) (choices others : List Bool) (m t : State) → StandsAlone listens p m →
        StandsAlone listens p t → SeemsAlike p m t → AsksNothing listens p m → IsQuietAlone p m →
        is_given_nothing_by p n choices m ≡ true → is_given_nothing_by p o others t ≡ true →
        AreFronts (doings p n choices m) (doings p o others t) }
{}

/// Tests find that a process is alone, that it has the same in two states, that nobody is given
/// something, and that its line is its own; and, where it stops alone, or goes round, that it asks
/// nothing and is quiet.
pub fn tests_find_who_is_alone()
    ensures alone { (listens : Bool) (p : ℕ) (m : State) → is_alone listens p m ≡ true → IsAlone listens p m }
    ensures holdings { (p : ℕ) (m t : State) → 0 < p → p ≤ length m.processes →
        p ≤ length t.processes → holdings p m ≡ holdings p t → SeemsAlike p m t }
    ensures given { (p n k : ℕ) (m : State) → IsLawful m → HasWholePages m →
        nobody_may_give m ≡ true → is_given_nothing p n k m ≡ true }
    ensures given_by { (p n : ℕ) (choices : List Bool) (m : State) → IsLawful m → HasWholePages m →
        nobody_may_give m ≡ true → is_given_nothing_by p n choices m ≡ true }
    ensures line { (p : ℕ) (m : State) → has_own_line p m ≡ true → HasOwnLine p m }
    ensures asks { (listens : Bool) (p k : ℕ) (m : State) → asks_nothing_alone listens p k m ≡ true →
        stops_alone p k m ≡ true → AsksNothing listens p m }
    ensures quiet { (p k : ℕ) (m : State) → quiet_alone p k m ≡ true →
        stops_alone p k m ≡ true → IsQuietAlone p m }
    ensures asks_round { (listens : Bool) (p before round : ℕ) (m : State) → 0 < p →
        p ≤ length m.processes → NothingWaits listens p m → GoesRound p before round m →
        asks_nothing_alone listens p (before + round) m ≡ true → AsksNothing listens p m }
    ensures quiet_round { (listens : Bool) (p before round : ℕ) (m : State) → 0 < p →
        p ≤ length m.processes → NothingWaits listens p m → GoesRound p before round m →
        asks_nothing_alone listens p (before + round) m ≡ true →
        quiet_alone p (before + round) m ≡ true → IsQuietAlone p m }
{}

/// Where no other process has its line, there stands what was there and what it puts, whatever the
/// others do.
pub fn on_its_own_line_stands_what_it_puts()
    ensures untouched { (p n k : ℕ) (m : State) → IsLawful m → p ≤ length m.processes →
        HasOwnLine p m →
        console_of p (after n (replicate k false) m) ≡ console_of p m ++ puts (deeds p n k m) }
    ensures touched { (p n : ℕ) (choices : List Bool) (m : State) → IsLawful m →
        p ≤ length m.processes → HasOwnLine p m →
        console_of p (after n (reverse choices) m)
        ≡ console_of p m ++ puts_by (doings p n choices m) }
{}

/// What the log says of a process is what its units were told.
pub fn the_log_says_of_it_what_it_was_told()
    ensures run { (p n : ℕ) (choices : List Bool) (m : State) →
        said_of p (after n (reverse choices) m).log
        ≡ said_of p m.log ++ told_by (doings p n choices m) }
    ensures reached { (p n : ℕ) (m u : State) (r : Reaches n m u) →
        said_of p u.log ≡ said_of p m.log ++ told_by (doings p n (reverse r.choices) m) }
{}

/// In a run in which a quiet process that asks nothing is alone, and nobody may give, each state that is
/// reached shows of it besides what was shown before what so many of its units do alone, whatever is
/// touched: the lines of the log about it, but for their times, and what stands on its line, where it is
/// its own. From the first state of an input, or under a good policy, nothing was shown before.
pub fn what_is_shown_of_it_is_what_it_does_alone()
    ensures more { (listens : Bool) (p n : ℕ) (m u : State) → StandsAlone listens p m →
        AsksNothing listens p m → IsQuietAlone p m → nobody_may_give m ≡ true → Reaches n m u →
        ShowsMore p m u }
    ensures first { (listens : Bool) (p n random : ℕ) (text : List ℕ) (sources : Sources)
        (input : List ℕ) (m u : State) → inputs text sources input n random ≡ Ok m →
        is_alone listens p m ≡ true → AsksNothing listens p m → IsQuietAlone p m →
        nobody_may_give m ≡ true → Reaches n m u → ShowsAlone p m u }
    ensures under { (listens : Bool) (p n random : ℕ) (policy : PolicyValue) (sources : Sources)
        (input : List ℕ) (m u : State) → IsGoodPolicy policy →
        inputs_under policy sources input n random ≡ Ok m → is_alone listens p m ≡ true →
        AsksNothing listens p m → IsQuietAlone p m → nobody_may_give m ≡ true → Reaches n m u →
        ShowsAlone p m u }
{}

/// Two inputs, each with its policy, sources, events, number of ticks and start of Random, in which
/// a quiet process that asks nothing has the same, is alone, and nobody may give: what it does in
/// any runs of theirs is a front the one of the other; and so is what the log says of it, and what
/// stands on its line, where it is its own, in any states that they reach.
pub fn two_inputs_show_it_the_same()
    ensures doings { (listens : Bool) (p n random o start : ℕ) (text other : List ℕ) (sources others : Sources)
        (input more : List ℕ) (m t : State) → inputs text sources input n random ≡ Ok m →
        inputs other others more o start ≡ Ok t → is_alone listens p m ≡ true → is_alone listens p t ≡ true →
        holdings p m ≡ holdings p t → AsksNothing listens p m → IsQuietAlone p m → nobody_may_give m ≡ true →
        nobody_may_give t ≡ true → (choices later : List Bool) →
        AreFronts (doings p n choices m) (doings p o later t) }
    ensures console { (listens : Bool) (p n random o start : ℕ) (text other : List ℕ) (sources others : Sources)
        (input more : List ℕ) (m t u v : State) → inputs text sources input n random ≡ Ok m →
        inputs other others more o start ≡ Ok t → is_alone listens p m ≡ true → is_alone listens p t ≡ true →
        holdings p m ≡ holdings p t → AsksNothing listens p m → IsQuietAlone p m → nobody_may_give m ≡ true →
        nobody_may_give t ≡ true → Reaches n m u → Reaches o t v → has_own_line p m ≡ true →
        has_own_line p t ≡ true → AreFronts (console_of p u) (console_of p v) }
    ensures log { (listens : Bool) (p n random o start : ℕ) (text other : List ℕ) (sources others : Sources)
        (input more : List ℕ) (m t u v : State) → inputs text sources input n random ≡ Ok m →
        inputs other others more o start ≡ Ok t → is_alone listens p m ≡ true → is_alone listens p t ≡ true →
        holdings p m ≡ holdings p t → AsksNothing listens p m → IsQuietAlone p m → nobody_may_give m ≡ true →
        nobody_may_give t ≡ true → Reaches n m u → Reaches o t v →
        AreFronts (said_of p u.log) (said_of p v.log) }
{}
