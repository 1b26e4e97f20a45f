//! Operations on `Object`.
ghost use Rattle.std.specs.Prelude.{All};
ghost use Rattle.dj_tree.specs.Plain.{plain_source, plain_operation};
ghost use Rattle.dj_tree.specs.WellFormed.{IsOperation};
ghost use Rattle.dj_calculus.specs.Faults.{ReservedClass};
ghost use Rattle.dj_calculus.specs.FaultPlaces.{FaultStands};
ghost use Rattle.dj_faults.specs.LeastPlace.{IsLeastPlace, Among};
ghost use Rattle.dj_faults.specs.Numbers.{IsSound};
ghost use Rattle.dj_faults.specs.Inside.{OnObject};

use crate::least::earlier;
use crate::spots::class_of;
use dj_tree::{ClassOp, Source};

// The place of the class of an operation, where it is `Object`.
fn object(source: &Source, operation: &ClassOp) -> Option<u32>
    requires sound { IsSound source.now }
    requires operation { IsOperation source.now.names source.now.exprs operation.now }
    ensures { IsLeastPlace (OnObject (plain_operation source.now.names source.now.exprs operation.now)) result }
{
    let class = class_of(operation);
    match source.names.find("Object") {
        Some(object) => (object.0 == class.name.0).then_some(class.at),
        None => None,
    }
}

// The least place of an operation on `Object`.
fn objects(source: &Source, operations: &[ClassOp]) -> Option<u32>
    requires sound { IsSound source.now }
    requires operations { All (IsOperation source.now.names source.now.exprs) operations.now }
    ensures { IsLeastPlace (Among (λ o. OnObject (plain_operation source.now.names source.now.exprs o)) operations.now) result }
{
    let mut least = None;
    for operation in operations {
        let here = object(source, operation);
        least = earlier(least, here);
    }
    least
}

// The least place of an operation of a delta on `Object`.
pub fn reserved_class(source: &Source) -> Option<u32>
    requires { IsSound source.now }
    ensures { IsLeastPlace (FaultStands (plain_source source.now) ReservedClass) result }
{
    let mut least = None;
    for delta in source.deltas.as_slice() {
        let here = objects(source, delta.ops.as_slice());
        least = earlier(least, here);
    }
    least
}
