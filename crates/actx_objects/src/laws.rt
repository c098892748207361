//! Laws of keys. The function does nothing: its contract is the law.

ghost use Rattle.actx_objects.specs.Laws.{NamesAreEqualWhereTextsAre};

use actx_value::equal_texts_share_their_least_number;

/// Two names stand for the same property, and two texts for the same entry, exactly where their texts
/// are equal.
pub fn names_are_equal_where_texts_are()
    ensures { NamesAreEqualWhereTextsAre }
{
    equal_texts_share_their_least_number();
}
