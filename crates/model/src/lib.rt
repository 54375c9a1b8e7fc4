// The cache as document 01 describes it, with no memory in sight: a crate of definitions and theorems, and no code.
//
// The ring is a row, the list of held entries in sweep order, beginning at the hand. Every rule of 01 is a short function
// on rows. Moving the hand turns the row, (e ∷ es) into es ++ [e]; a new page goes to second place; a removal leaves what
// stood before it and after it.
//
// specs/, in the order in which to read it:
//     Row.antt        pages, entries, rows; finding, changing and removing by key; the order of walks over keys
//     Sweep.antt      rules 2 and 3: a touch, a look, a sweep
//     Demand.antt     demand 3 in its own words: who is taken, what the others lose, where the hand rests
//     Cache.antt      the cache: rules 1, 4 and 12
//     Call.antt       the calls with their arguments, and an outcome
//     Tests.antt      which call is refused before any rule, and in what order
//     Rooms.antt      rule 5: making room
//     Evictions.antt  demand 3 of one eviction from a cache, and of several one after another
//     Rules.antt      rules 6 to 11: insertion, lookup, deletion, resize, the sweeping deletions
//     Spill.antt      rules 13 and 14
//     Step.antt       every call: tests, then rules; runs of calls
//     Uses.antt       demand 3's ledger: the touch of a call and its evictions, as a function of the cache before it
//     Limits.antt     what a cache keeps from its creation on
//     Examples.antt   01's sweeps to check by hand, and an example of each call and answer, as a table
//
// proofs/ has the theorems.
#![tactic(auto)]
