//! The faults of a Java file that the grammar accepts, in the order in which they are looked for.
ghost use Rattle.std.specs.Prelude.{◌<◌, length, All, IfOk};
ghost use Rattle.dj_tree.specs.Plain.{plain_spot, plain_method, plain_class, plain_java};
ghost use Rattle.dj_tree.specs.WellFormed.{IsMethod, IsClass, IsWellFormedJava};
ghost use Rattle.dj_calculus.specs.JavaFiles.{JavaFaultStands, RepeatedClass, RepeatedMember, RepeatedParameter};
ghost use Rattle.dj_faults.specs.LeastPlace.{IsLeastPlace, Among};
ghost use Rattle.java_reader.specs.Faults.{IsObject, MemberTwice, ParameterTwice, IsFirstFound};

use crate::named::repeated_name;
use dj_faults::earlier;
use dj_names::Names;
use dj_refusals::JavaFault;
use dj_tree::{ClassDecl, JavaSource, Method};
use std::alloc::{AllocError as NoMemory, Global};

// The first fault of the classes, with its place, and `None` where they have none.
pub fn first_fault(alloc: Global, source: &JavaSource) -> Result<Option<(JavaFault, u32)>, NoMemory>
    requires { IsWellFormedJava source.now }
    ensures { IfOk result (IsFirstFound (plain_java source.now)) }
{
    if let Some(at) = class_fault(alloc, source)? {
        return Ok(Some((JavaFault::Class, at)));
    }
    if let Some(at) = member_fault(alloc, source)? {
        return Ok(Some((JavaFault::Member, at)));
    }
    if let Some(at) = parameter_fault(alloc, source)? {
        return Ok(Some((JavaFault::Parameter, at)));
    }
    Ok(None)
}

// The least place of a class that was declared before or is `Object`.
fn class_fault(alloc: Global, source: &JavaSource) -> Result<Option<u32>, NoMemory>
    requires { IsWellFormedJava source.now }
    ensures { IfOk result (IsLeastPlace (JavaFaultStands (plain_java source.now) RepeatedClass)) }
{
    let again = repeated_name(alloc, &source.names, source.classes.as_slice())?;
    let object = object_class(source);
    Ok(earlier(again, object))
}

// The least place of a class that is `Object`.
fn object_class(source: &JavaSource) -> Option<u32>
    requires { IsWellFormedJava source.now }
    ensures { IsLeastPlace (Among (λ c. IsObject (plain_spot source.now.names c.spot)) source.now.classes) result }
{
    let mut least = None;
    for class in source.classes.as_slice() {
        let here = object_at(&source.names, class);
        least = earlier(least, here);
    }
    least
}

// The place of a class that is `Object`.
fn object_at(names: &Names, class: &ClassDecl) -> Option<u32>
    requires { class.now.spot.name.0 < length names.now }
    ensures { IsLeastPlace (IsObject (plain_spot names.now class.now.spot)) result }
{
    (names.text(class.spot.name) == "Object").then_some(class.spot.at)
}

// The least place of a field, or of a method, that was declared before in its class.
fn member_fault(alloc: Global, source: &JavaSource) -> Result<Option<u32>, NoMemory>
    requires { IsWellFormedJava source.now }
    ensures { IfOk result (IsLeastPlace (JavaFaultStands (plain_java source.now) RepeatedMember)) }
{
    let mut least = None;
    for class in source.classes.as_slice() {
        let here = member_twice(alloc, source, class)?;
        least = earlier(least, here);
    }
    Ok(least)
}

// The least place of a field, or of a method, of the class that was declared before.
fn member_twice(
    alloc: Global,
    source: &JavaSource,
    class: &ClassDecl,
) -> Result<Option<u32>, NoMemory>
    requires { IsClass source.now.names source.now.exprs class.now }
    ensures { IfOk result (IsLeastPlace (MemberTwice (plain_class source.now.names source.now.exprs class.now))) }
{
    let field = repeated_name(alloc, &source.names, class.fields.as_slice())?;
    let method = repeated_name(alloc, &source.names, class.methods.as_slice())?;
    Ok(earlier(field, method))
}

// The least place of a parameter that was named before in its method.
fn parameter_fault(alloc: Global, source: &JavaSource) -> Result<Option<u32>, NoMemory>
    requires { IsWellFormedJava source.now }
    ensures { IfOk result (IsLeastPlace (JavaFaultStands (plain_java source.now) RepeatedParameter)) }
{
    let mut least = None;
    for class in source.classes.as_slice() {
        let here = in_methods(alloc, source, class.methods.as_slice())?;
        least = earlier(least, here);
    }
    Ok(least)
}

// The least place of a parameter of one of the methods that was named before in it.
fn in_methods(
    alloc: Global,
    source: &JavaSource,
    methods: &[Method],
) -> Result<Option<u32>, NoMemory>
    requires { All (IsMethod source.now.names source.now.exprs) methods.now }
    ensures { IfOk result (IsLeastPlace (Among (λ m. ParameterTwice (plain_method source.now.names source.now.exprs m)) methods.now)) }
{
    let mut least = None;
    for method in methods {
        let here = parameter_twice(alloc, source, method)?;
        least = earlier(least, here);
    }
    Ok(least)
}

// The least place of a parameter of the method that was named before.
fn parameter_twice(
    alloc: Global,
    source: &JavaSource,
    method: &Method,
) -> Result<Option<u32>, NoMemory>
    requires { IsMethod source.now.names source.now.exprs method.now }
    ensures { IfOk result (IsLeastPlace (ParameterTwice (plain_method source.now.names source.now.exprs method.now))) }
{
    repeated_name(alloc, &source.names, method.parameters.as_slice())
}
