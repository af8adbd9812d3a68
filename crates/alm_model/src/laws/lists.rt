//! Laws of the lists.

ghost use Rattle.std.specs.Prelude.{◌≡◌, IsPermutation, Contains, ◌↔◌, List, ℕ, true, Bool, slice_get};
ghost use Rattle.alm_types.specs.declared.attr.Attr.{Attr};
ghost use Rattle.alm_state.specs.Rows.{State};
ghost use Rattle.alm_model.specs.Plant.{Condensed};
ghost use Rattle.alm_model.specs.Lists.{alarms, alarms_by, is_one, key_of, list_of, stands_in};
ghost use Rattle.alm_model.specs.Rising.{Rises, RisesByStamp, is_by_stamp};
ghost use Rattle.alm_model.specs.Rules.{KeepsRules};
ghost use Rattle.alm_model.specs.declared.list.List.{List as Choice};

/// Each list by stamp has exactly the alarms that belong to it, each once, and rises strictly by stamp.
pub fn lists_rise_by_stamp()
    ensures permutation { (q : Condensed) (list : Choice) → is_by_stamp list ≡ true →
        IsPermutation (alarms (stands_in list) q.panel.attrs q.panel.rows) (list_of list q) }
    ensures rises { (q : Condensed) (list : Choice) → KeepsRules q → is_by_stamp list ≡ true →
        RisesByStamp q.panel (list_of list q) }
{}

/// A list that rises strictly by stamp and consists of exactly the alarms that belong to it is that list.
pub fn rising_by_stamp_is_list()
    ensures { (q : Condensed) (list : Choice) (out : List ℕ) → is_by_stamp list ≡ true →
        RisesByStamp q.panel out →
        ((i : ℕ) → Contains out i ↔ (is_one (stands_in list) q.panel.attrs q.panel.rows i ≡ true)) →
        out ≡ list_of list q }
{}

/// The alarms by a key are those that pass a test, each once, and rise by key, then number.
pub fn alarms_rise_by_key()
    ensures permutation { (key : State → ℕ) (test : Attr → State → Bool) (attrs : List Attr)
        (rows : List State) →
        IsPermutation (alarms test attrs rows) (alarms_by key test attrs rows) }
    ensures members { (key : State → ℕ) (test : Attr → State → Bool) (attrs : List Attr)
        (rows : List State) (i : ℕ) →
        Contains (alarms_by key test attrs rows) i ↔ (is_one test attrs rows i ≡ true) }
    ensures rises { (key : State → ℕ) (test : Attr → State → Bool) (attrs : List Attr)
        (rows : List State) →
        Rises (λ i. key_of key (slice_get rows i)) (alarms_by key test attrs rows) }
{}

/// A list that rises by key, then number, and consists of exactly the alarms that pass is that list.
pub fn rising_by_key_is_list()
    ensures { (key : State → ℕ) (test : Attr → State → Bool) (attrs : List Attr) (rows : List State)
        (out : List ℕ) → Rises (λ i. key_of key (slice_get rows i)) out →
        ((i : ℕ) → Contains out i ↔ (is_one test attrs rows i ≡ true)) →
        out ≡ alarms_by key test attrs rows }
{}
