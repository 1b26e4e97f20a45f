//! Laws of entries: their clauses, and the values of their keys.

ghost use Rattle.gate_encoder.specs.Laws.{ClausesSay, ValuesSay, FreeKeysDecide, ChoicesExtend, AllOfSays, AnyOfSays, EqualSays, RenamingKeeps, FormulasHaveValues};

/// An assignment holds the clauses of entries exactly if the values that it gives the keys agree with each entry.
pub fn clauses_say<K: Eq>()
    ensures { ClausesSay K.eq }
{}

/// Values of the keys that agree with each entry are an assignment that holds the clauses, in the order of the keys' numbers, and
/// others aren't one.
pub fn values_say<K: Eq>()
    ensures { ValuesSay K.eq }
{}

/// Values that agree with entries, and are alike on the free keys, are alike.
pub fn free_keys_decide<K: Eq>()
    ensures { FreeKeysDecide K.eq }
{}

/// Where every gate's key gets its number by its gate, each choice of values for the free keys extends to values that agree with
/// every gate.
pub fn choices_extend<K: Eq>()
    ensures { ChoicesExtend K.eq }
{}

/// In every assignment that holds the clauses, a new gate's literal has the gate's value.
pub fn gates_have_values<K: Eq>()
    ensures all { AllOfSays K.eq }
    ensures any { AnyOfSays K.eq }
    ensures equal { EqualSays K.eq }
{}

/// Entries whose keys are renamed by a function that keeps them apart write the same clauses.
pub fn renaming_keeps<J: Eq, K: Eq>()
    ensures { RenamingKeeps J.eq K.eq }
{}

/// Values that agree with a formula's entries give its literal the formula's value.
pub fn formulas_have_values<K: Eq>()
    ensures { FormulasHaveValues K }
{}
