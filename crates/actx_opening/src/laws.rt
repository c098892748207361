//! What the opening store holds, as laws. The functions do nothing: their contracts are the laws.

ghost use Rattle.std.specs.Prelude.{◌≡◌, ◌<◌, ℕ, List, [], ◌∷◌, ◌++◌, All, true, is_some, map, length};
ghost use Rattle.std.specs.List.{list_any};
ghost use Rattle.actx_value.specs.Texts.{texts_eq, number_of};
ghost use Rattle.actx_table.specs.Table.{count, rows};
ghost use Rattle.actx_opening.specs.Words.{words};
ghost use Rattle.actx_opening.specs.Texts.{opening_texts};
ghost use Rattle.actx_opening.specs.Starts.{kind_in};
ghost use Rattle.actx_opening.specs.Members.{members};
ghost use Rattle.actx_opening.specs.Opening.{opening_objects, are_apart, kinds_of};

/// Where no literal is empty, the texts are the empty text, the literals and the words. So literal i has the number i + 1.
pub fn texts_stand_in_order()
    ensures { (literals : List (List ℕ)) → All (λ t. 0 < length t) literals → opening_texts literals ≡ ([] ∷ literals) ++ words }
{}

/// Each word is a text of the opening store, whatever the literals are.
pub fn words_are_there()
    ensures { (literals : List (List ℕ)) (w : List ℕ) → list_any (texts_eq w) words ≡ true → is_some (number_of (opening_texts literals) w) ≡ true }
{}

/// The built-in objects have the kinds that the table says, whatever the code and the limits are.
pub fn kinds_are_those_of_the_table()
    ensures { (literals : List (List ℕ)) (objects properties : ℕ) → kinds_of (opening_objects literals objects properties) ≡ map kind_in rows }
{}

/// No two properties of the opening store have the same holder and the same name, so none writes over another.
pub fn members_are_apart()
    ensures { are_apart members ≡ true }
{}

/// The built-in objects are as many as the table has, so the first object of the run has the next number.
pub fn built_ins_come_first()
    ensures { (literals : List (List ℕ)) (objects properties : ℕ) → length (opening_objects literals objects properties).objects ≡ count }
{}
