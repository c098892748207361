//! What stands around a node, without the names.

ghost use Rattle.actx_scope_rules.specs.Contexts as contexts;
ghost use Rattle.actx_scope_rules.specs.Contexts.{arrow_place, method_place, function_place, body_place, turn_place, owned_place};
ghost use Rattle.std.specs.Prelude.{◌≡◌};

use actx_tree::Flow;

/// Whose method a method is.
#[derive(Clone, Copy, Debug, PartialEq, Eq)]
pub enum Owner {
    /// A member of a class that isn't static; whether the class has `extends`, and whether a constructor
    /// stands before it.
    Class(bool, bool),
    /// Any other method.
    Other,
}

/// What is done with an expression, or with a function or a class.
#[derive(Clone, Copy, Debug, PartialEq, Eq)]
pub enum Role {
    /// Its value is taken.
    Evaluated,
    /// It is a place that is assigned.
    Assigned,
    /// It is a declaration.
    Declared,
}

/// What stands around a node, as far as early errors ask for it that aren't about names.
#[derive(Clone, Copy, Debug, PartialEq, Eq)]
pub struct Place {
    /// Whose method it is, where it is one.
    pub owner: Owner,
    /// In a loop of its function.
    pub in_loop: bool,
    /// In a function.
    pub in_function: bool,
    /// In the body of an async function.
    pub can_await: bool,
    /// In the body of a generator.
    pub can_yield: bool,
    /// `super(..)` may stand here.
    pub can_super_call: bool,
    /// `super.name` may stand here.
    pub can_super_member: bool,
}

impl Place {
    /// In the parameters of an arrow at this place. `super` means what it means around the arrow.
    pub fn in_arrow(self) -> Place
        ensures { result ≡ arrow_place self }
    {
        Place {
            owner: Owner::Other,
            in_loop: false,
            in_function: true,
            can_await: false,
            can_yield: false,
            can_super_call: self.can_super_call,
            can_super_member: self.can_super_member,
        }
    }

    /// In the parameters of a method at this place; whether it is the constructor of a class with
    /// `extends`.
    pub fn in_method(self, can_call: bool) -> Place
        ensures { result ≡ method_place can_call self }
    {
        let mut place = self.in_arrow();
        place.can_super_call = can_call;
        place.can_super_member = true;
        place
    }

    /// In the parameters of any other function at this place.
    pub fn in_function(self) -> Place
        ensures { result ≡ function_place self }
    {
        let mut place = self.in_arrow();
        place.can_super_call = false;
        place.can_super_member = false;
        place
    }

    /// In the body behind parameters at this place.
    pub fn in_body(self, flow: Flow) -> Place
        ensures { result ≡ body_place flow self }
    {
        let mut place = self;
        place.can_await = match flow {
            Flow::Async => true,
            Flow::Plain | Flow::Generator => false,
        };
        place.can_yield = match flow {
            Flow::Generator => true,
            Flow::Plain | Flow::Async => false,
        };
        place
    }

    /// In a turn of a loop at this place.
    pub fn in_turn(self) -> Place
        ensures { result ≡ turn_place self }
    {
        let mut place = self;
        place.in_loop = true;
        place
    }

    /// At this place as a method of that owner.
    pub fn owned_by(self, owner: Owner) -> Place
        ensures { result ≡ owned_place owner self }
    {
        let mut place = self;
        place.owner = owner;
        place
    }
}

/// Around the statements of a file.
pub fn file_place() -> Place
    ensures { result ≡ contexts.file_place }
{
    Place {
        owner: Owner::Other,
        in_loop: false,
        in_function: false,
        can_await: false,
        can_yield: false,
        can_super_call: false,
        can_super_member: false,
    }
}
