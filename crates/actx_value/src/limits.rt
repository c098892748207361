//! The limits of a run.

ghost use Rattle.std.specs.Prelude.{◌≡◌};
ghost use Rattle.actx_value.specs.Limits.{IsFromOneTo, most_calls, most_objects, most_properties, most_cells, most_text, most_bindings, most_variables, most_resources, most_turns};

/// The most that each count of a run may be: at least 1, and at most the standard limit.
#[derive(Clone, Copy, Debug, PartialEq, Eq)]
pub struct Limits {
    /// Stack items, from 1 to 4,000.
    pub calls: u64,
    /// Objects, from 1 to 2,000,000.
    pub objects: u64,
    /// Properties and elements, from 1 to 8,000,000.
    pub properties: u64,
    /// Scopes and their cells, from 1 to 8,000,000.
    pub cells: u64,
    /// Units of texts, from 1 to 67,108,864.
    pub text: u64,
    /// Bindings, from 1 to 1,000,000.
    pub bindings: u64,
    /// Variables and storages, from 1 to 1,024.
    pub variables: u64,
    /// Resources, from 1 to 2,000,000.
    pub resources: u64,
    /// Turns of the loop, from 1 to 1,000,000.
    pub turns: u64,
    ghost calls_in_range: { IsFromOneTo most_calls calls },
    ghost objects_in_range: { IsFromOneTo most_objects objects },
    ghost properties_in_range: { IsFromOneTo most_properties properties },
    ghost cells_in_range: { IsFromOneTo most_cells cells },
    ghost text_in_range: { IsFromOneTo most_text text },
    ghost bindings_in_range: { IsFromOneTo most_bindings bindings },
    ghost variables_in_range: { IsFromOneTo most_variables variables },
    ghost resources_in_range: { IsFromOneTo most_resources resources },
    ghost turns_in_range: { IsFromOneTo most_turns turns },
}

/// The standard limits.
pub fn standard() -> Limits
    ensures calls { result.calls ≡ most_calls }
    ensures objects { result.objects ≡ most_objects }
    ensures properties { result.properties ≡ most_properties }
    ensures cells { result.cells ≡ most_cells }
    ensures text { result.text ≡ most_text }
    ensures bindings { result.bindings ≡ most_bindings }
    ensures variables { result.variables ≡ most_variables }
    ensures resources { result.resources ≡ most_resources }
    ensures turns { result.turns ≡ most_turns }
{
    Limits {
        calls: 4_000,
        objects: 2_000_000,
        properties: 8_000_000,
        cells: 8_000_000,
        text: 67_108_864,
        bindings: 1_000_000,
        variables: 1_024,
        resources: 2_000_000,
        turns: 1_000_000,
    }
}
