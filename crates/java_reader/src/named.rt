//! Declarations by the names that they declare.
ghost use Rattle.std.specs.Prelude.{◌≡◌, All, map, IfOk};
ghost use Rattle.std.specs.List.Sorted.{IsPermutation};
ghost use Rattle.dj_tree.specs.Plain.{plain_spot};
ghost use Rattle.dj_tree.specs.WellFormed.{IsKnown};
ghost use Rattle.dj_calculus.specs.FaultPlaces.{Repeats};
ghost use Rattle.dj_faults.specs.LeastPlace.{IsLeastPlace};
ghost use Rattle.java_reader.specs.Making.{declared};

use dj_faults::repeated;
use dj_names::{Names, names_are_distinct};
use dj_tree::{ClassDecl, FieldDecl, Method, Spot};
use std::alloc::{AllocError as NoMemory, Global};

/// What declares a name.
pub trait Declaration {
    ghost use Rattle.dj_tree.specs.declared.declarations.Spot.{Spot};

    ghost spot_of: { Self → Spot };

    /// The declared name, with its place.
    fn spot(&self) -> Spot
        ensures { result ≡ spot_of self.now };
}

impl Declaration for FieldDecl {
    ghost spot_of = { λ f. f.spot };

    fn spot(&self) -> Spot {
        self.spot
    }
}

impl Declaration for Method {
    ghost spot_of = { λ m. m.spot };

    fn spot(&self) -> Spot {
        self.spot
    }
}

impl Declaration for ClassDecl {
    ghost spot_of = { λ c. c.spot };

    fn spot(&self) -> Spot {
        self.spot
    }
}

/// A declaration with the text of its name.
#[derive(Drop)]
pub struct Named<'a, D> {
    pub name: &'a str,
    pub declaration: &'a D,
}

// The declarations in the order of their names. What is put into a table in this order takes the least time.
pub fn by_name<'a, D: Declaration>(
    alloc: Global,
    names: &'a Names,
    declarations: &'a [D],
) -> Result<Vec<Named<'a, D>>, NoMemory>
    requires { All (λ d. IsKnown names.now (D.spot_of d)) declarations.now }
    ensures { IfOk result (λ sorted. IsPermutation declarations.now (declared sorted.items)) }
{
    let mut sorted = Vec::new(alloc);
    for declaration in declarations {
        sorted.push(Named {
            name: names.text(declaration.spot().name),
            declaration,
        })?;
    }
    sorted.sort_by(|one, other| one.name.cmp(other.name))?;
    Ok(sorted)
}

// The declared names.
fn spots<D: Declaration>(alloc: Global, declarations: &[D]) -> Result<Vec<Spot>, NoMemory>
    ensures { IfOk result (λ spots. spots.items ≡ map D.spot_of declarations.now) }
{
    let mut spots = Vec::new(alloc);
    for declaration in declarations {
        spots.push(declaration.spot())?;
    }
    Ok(spots)
}

// The least place of a declaration whose name an earlier one declares.
pub fn repeated_name<D: Declaration>(
    alloc: Global,
    names: &Names,
    declarations: &[D],
) -> Result<Option<u32>, NoMemory>
    requires { All (λ d. IsKnown names.now (D.spot_of d)) declarations.now }
    ensures { IfOk result (IsLeastPlace (Repeats (map (λ d. plain_spot names.now (D.spot_of d)) declarations.now))) }
{
    names_are_distinct(names);
    let spots = spots(alloc, declarations)?;
    repeated(alloc, spots.as_slice())
}
