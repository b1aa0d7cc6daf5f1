//! Laws over histories, each the contract of a function with an empty body.
ghost use Rattle.std.specs.Prelude.{◌≡◌, ◌≢◌, ◌↔◌, ℕ, List, Some, slice_get};
ghost use Rattle.std.specs.List.{AllPairs, Contains, flat_map};
ghost use Rattle.histories.specs.declared.entry.Entry.{Entry};
ghost use Rattle.histories.specs.declared.entry.Reply.TheVariants.{New, Again};
ghost use Rattle.histories.specs.SetObject.{keys_after, reply_to};
ghost use Rattle.histories.specs.History.{IsLegal};
ghost use Rattle.histories.specs.Counts.{AreItsKeys, entries_in, entries_with, keys_of, new_keys, news_among, news_with};
ghost use Rattle.histories.specs.Joined.{ShareNoKey, joined};

/// The set answers New exactly where no entry before has the key, and Again exactly where one has it.
pub fn told_new_where_missing()
    ensures fresh { (history : List Entry) (key : List ℕ) → (reply_to (keys_after history) key ≡ New) ↔ ¬ (Contains (keys_of history) key) }
    ensures known { (history : List Entry) (key : List ℕ) → (reply_to (keys_after history) key ≡ Again) ↔ Contains (keys_of history) key }
{}

/// In a legal history each key that stands in it has exactly one entry that was told New.
pub fn one_caller_is_told_new()
    ensures { (history : List Entry) (key : List ℕ) → IsLegal history → Contains (keys_of history) key → news_with key history ≡ 1 }
{}

/// The keys of the set after a legal history are those that were told New, in order.
pub fn the_set_keeps_new_keys()
    ensures { (history : List Entry) → IsLegal history → keys_after history ≡ new_keys history }
{}

/// The keys that were told New are the keys of the history, each once.
pub fn each_key_is_new_once()
    ensures once { (history : List Entry) → IsLegal history → AllPairs (λ x y. x ≢ y) (new_keys history) }
    ensures keys { (history : List Entry) (key : List ℕ) → IsLegal history → Contains (new_keys history) key ↔ Contains (keys_of history) key }
{}

/// Whatever the order of the entries: where the keys of a legal history are those of a list, each as often as it stands there,
/// the keys that were told New are those of the list, each once.
pub fn the_order_is_free()
    ensures once { (keys : List (List ℕ)) (history : List Entry) → IsLegal history → AreItsKeys keys history → AllPairs (λ x y. x ≢ y) (new_keys history) }
    ensures exact { (keys : List (List ℕ)) (history : List Entry) (key : List ℕ) → IsLegal history → AreItsKeys keys history →
        Contains (new_keys history) key ↔ Contains keys key }
{}

/// Legal histories of stripes that share no key are one legal history, one after the other and with each caller's calls numbered
/// anew. It has the same entries for each key, and the same keys were told New, each by one entry of all the histories.
pub fn stripes_are_one_history()
    ensures legal { (histories : List (List Entry)) → ((s : ℕ) (history : List Entry) → slice_get histories s ≡ Some history → IsLegal history) →
        ShareNoKey histories → IsLegal (joined histories) }
    ensures entries { (histories : List (List Entry)) (key : List ℕ) → entries_with key (joined histories) ≡ entries_in histories key }
    ensures fresh { (histories : List (List Entry)) → new_keys (joined histories) ≡ flat_map new_keys histories }
    ensures once { (histories : List (List Entry)) (key : List ℕ) → IsLegal (joined histories) → Contains (flat_map new_keys histories) key → news_among histories key ≡ 1 }
{}
