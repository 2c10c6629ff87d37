//! What follows from the definitions of the sequential objects.

ghost use Rattle.std.specs.Prelude.{◌≡◌, ℕ, ◌+◌, ◌<◌, ◌≤◌, ◌^◌, List, [], ◌∷◌, length, map, All, count_by, IsSome, Option, Some, None, Bool, true};
ghost use Rattle.std.specs.List.{sum_by, flat_map, range_with_len};
ghost use Rattle.std.specs.List.Sorted.{IsPermutation};
ghost use Rattle.bcl_words.specs.Merges.{IsSameInAnyOrder};
ghost use Rattle.bcl_event.specs.declared.map.MapCall.{MapCall};
ghost use Rattle.bcl_event.specs.History.{of, state_after, IsLegal};
ghost use Rattle.bcl_event.specs.Map.{Pairs, value_at, with_pair, with_value, map_step};
ghost use Rattle.bcl_event.specs.Merged.{MapHistory, most_keys, NoneFull, MergesAlone, MergeTheSame, merged_for, folded};
ghost use Rattle.bcl_event.specs.SeqMap.{MakesValues};
ghost use Rattle.bcl_event.specs.Array.{MakesItems};
ghost use Rattle.bcl_event.specs.declared.map.MapCall.TheVariants.{Add};
ghost use Rattle.bcl_event.specs.declared.array.ArrayCall.TheVariants.{FetchAdd, FetchMin};
ghost use Rattle.bcl_event.specs.Stored.{Stores};
ghost use Rattle.bcl_event.specs.InOrder.{KeepsOrder};
ghost use Rattle.bcl_event.specs.Filter.{is_present};
ghost use Rattle.bcl_event.specs.Promises.{Promise, code, promise_of};

use bcl_words::Object;

/// A value that is stored in a map is found at its key, the other keys keep theirs, and just a new key makes one key
/// more. It does nothing, and its contract is what is proved.
pub fn stored_values_are_found()
    ensures new { (pairs : Pairs) (key value : List ℕ) → value_at key pairs ≡ None → Stores key value pairs (with_pair key value pairs) 1 }
    ensures replaced { (pairs : Pairs) (key value : List ℕ) → IsSome (value_at key pairs) → Stores key value pairs (with_value key value pairs) 0 }
{}

/// A map that has room for all keys that the calls of a history may add answers none of them `Full`. It does nothing, and
/// its contract is what is proved.
pub fn maps_with_room_are_never_full()
    ensures { (capacity : ℕ) (op : List ℕ → List ℕ → List ℕ) (pairs : Pairs) (history : MapHistory) → IsLegal (map_step capacity op) pairs history → length pairs + most_keys history ≤ capacity → NoneFull history }
{}

/// Merges leave for each key the fold of the values that were merged for it into what it had. Where the order of values
/// doesn't matter, two histories that merge the same values for a key into empty maps leave it the same value. It does
/// nothing, and its contract is what is proved.
pub fn merges_leave_folds()
    ensures folds { (capacity : ℕ) (op : List ℕ → List ℕ → List ℕ) (pairs : Pairs) (history : MapHistory) (key : List ℕ) → MergesAlone capacity op pairs history → value_at key (state_after (map_step capacity op) pairs history) ≡ folded op (value_at key pairs) (merged_for key history) }
    ensures any_order { (passes : List ℕ → Bool) (op : List ℕ → List ℕ → List ℕ) (capacity other : ℕ) (one two : MapHistory) (key : List ℕ) → IsSameInAnyOrder passes op → MergesAlone capacity op [] one → MergesAlone other op [] two → MergeTheSame passes key one two → value_at key (state_after (map_step capacity op) [] one) ≡ value_at key (state_after (map_step other op) [] two) }
{}

/// The events of a map's history are those of its ranks, one rank after another, in some order, and so are its calls: as
/// many of them pass a test as of the ranks' calls together. It does nothing, and its contract is what is proved.
pub fn calls_are_those_of_the_ranks()
    ensures events { (ranks : ℕ) (history : MapHistory) → All (λ e. e.rank < ranks) history → IsPermutation history (flat_map (λ r. of r history) (range_with_len 0 ranks)) }
    ensures calls { (ranks : ℕ) (history : MapHistory) → All (λ e. e.rank < ranks) history → IsPermutation (map (λ e. e.call) history) (flat_map (λ r. map (λ e. e.call) (of r history)) (range_with_len 0 ranks)) }
    ensures count { (ranks : ℕ) (test : MapCall (List ℕ) (List ℕ) → Bool) (history : MapHistory) → All (λ e. e.rank < ranks) history → count_by (λ e. test e.call) history ≡ sum_by (λ r. count_by (λ e. test e.call) (of r history)) (range_with_len 0 ranks) }
{}

/// The items that are taken from a queue, and then those that are left, are those that were put, in order. It does
/// nothing, and its contract is what is proved.
pub fn items_are_taken_in_order()
    ensures { (capacity first : ℕ) (limit : Option ℕ) → KeepsOrder capacity first limit }
{}

/// A key that is inserted into a filter is present from then on. It does nothing, and its contract is what is proved.
pub fn inserted_keys_are_present()
    ensures inserted { (blocks width : ℕ) (keys : List (List ℕ)) (key : List ℕ) → is_present blocks width (key ∷ keys) key ≡ true }
    ensures stays { (blocks width : ℕ) (keys : List (List ℕ)) (key other : List ℕ) → is_present blocks width keys key ≡ true → is_present blocks width (other ∷ keys) key ≡ true }
{}

/// Where values and items are numbers of 64 bits, so is each number that a call makes of one. It does nothing, and its
/// contract is what is proved.
pub fn numbers_make_numbers()
    ensures add { (pairs : Pairs) (key : List ℕ) (n : ℕ) → MakesValues ⟦<u64 as Object>⟧.passes pairs (Add key n) }
    ensures fetch_add { (items : List (List ℕ)) (place n : ℕ) → MakesItems {T = List ℕ} ⟦<u64 as Object>⟧.passes items (FetchAdd place n) }
    ensures fetch_min { (items : List (List ℕ)) (place n : ℕ) → n < 2 ^ 64 → MakesItems {T = List ℕ} ⟦<u64 as Object>⟧.passes items (FetchMin place n) }
{}

/// The promise of a promise's number is that promise. It does nothing, and its contract is what is proved.
pub fn numbers_name_promises()
    ensures { (promise : Promise) → promise_of (code promise) ≡ Some promise }
{}
