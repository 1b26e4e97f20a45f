//! The least places of things, by what they touch.
ghost use Rattle.std.specs.Prelude.{◌≡◌, ◌++◌, ◌∷◌, [], true, ℕ, List, Some, OnOk};
ghost use Rattle.indexmap.specs.IndexMap.{get};
ghost use Rattle.dj_names.specs.Texts.{Text, AreDistinct};
ghost use Rattle.dj_calculus.specs.Things as calculus;
ghost use Rattle.dj_apply.specs.Kept.{Keeps, Lowers, NoGreater, IsPlaceAgainst};
ghost use Rattle.dj_apply.specs.Least.{IsLeastBy, IsEarlierOf, Among};
ghost use Rattle.dj_apply.specs.Overlaps.{IsNoLater, Clash};
ghost use Rattle.dj_apply.specs.Touched.{plain_thing, IsTouched};

use crate::overlaps::Thing;
use crate::things::{Touch, Touched};
use indexmap::IndexMap;
use std::alloc::{AllocError as NoMemory, Global};
use std::hash::Hash;

/// A field or a method of a class, by the numbers of their names.
#[derive(Clone, Copy, Debug, PartialEq, Eq, Hash)]
pub struct MemberOfClass {
    pub class: u32,
    pub name: u32,
}

/// For each class the least place of a thing that touches it, and of those that touch the whole of it, its superclass, or
/// a field or method of it. So the least thing that conflicts with another is found by two look-ups.
#[derive(Drop)]
pub struct LeastPlaces {
    pub any: IndexMap<u32, u32>,
    pub wholes: IndexMap<u32, u32>,
    pub superclasses: IndexMap<u32, u32>,
    pub fields: IndexMap<MemberOfClass, u32>,
    pub methods: IndexMap<MemberOfClass, u32>,
}

impl LeastPlaces {
    /// The places of no things.
    pub fn new(alloc: Global) -> LeastPlaces
        ensures { (names : List Text) → Keeps names result [] }
    {
        LeastPlaces {
            any: IndexMap::new(alloc),
            wholes: IndexMap::new(alloc),
            superclasses: IndexMap::new(alloc),
            fields: IndexMap::new(alloc),
            methods: IndexMap::new(alloc),
        }
    }

    /// Adds a thing to those whose places are kept. Without memory the places are of no use.
    pub fn keep(&mut self, thing: Touched) -> Result<(), NoMemory>
        ensures { (names : List Text) (things : List calculus.Thing) → AreDistinct names → IsTouched names thing → Keeps names self.old things
            → OnOk result (Keeps names self.new (things ++ plain_thing names thing ∷ [])) }
    {
        let class = thing.class.0;
        let at = thing.at;
        lower(&mut self.any, class, at)?;
        match thing.touch {
            Touch::Mention => Ok(()),
            Touch::Whole => lower(&mut self.wholes, class, at),
            Touch::Superclass => lower(&mut self.superclasses, class, at),
            Touch::Field(name) => lower(&mut self.fields, member_of(class, name.0), at),
            Touch::Method(name) => lower(&mut self.methods, member_of(class, name.0), at),
        }
    }

    /// The least conflict of the things whose places are kept with another thing.
    pub fn conflict_with(&self, thing: Touched) -> Option<Thing>
        ensures { (names : List Text) (things : List calculus.Thing) → IsTouched names thing → Keeps names self.now things
            → IsLeastBy IsNoLater (Among (λ a. Clash a (plain_thing names thing)) things) result }
    {
        let first = self.place_against(thing)?;
        let second = thing.at;
        Some(Thing { first, second })
    }

    // The least place of a thing that conflicts with another.
    fn place_against(&self, thing: Touched) -> Option<u32>
        ensures { (names : List Text) (things : List calculus.Thing) → IsTouched names thing → Keeps names self.now things
            → IsLeastBy NoGreater (IsPlaceAgainst (plain_thing names thing) things) result }
    {
        let class = thing.class.0;
        let whole = place_at(&self.wholes, class);
        match thing.touch {
            Touch::Whole => place_at(&self.any, class),
            Touch::Mention => whole,
            Touch::Superclass => lesser(whole, place_at(&self.superclasses, class)),
            Touch::Field(name) => {
                lesser(whole, place_at(&self.fields, member_of(class, name.0)))
            }
            Touch::Method(name) => {
                lesser(whole, place_at(&self.methods, member_of(class, name.0)))
            }
        }
    }
}

// The member of a class, by numbers.
fn member_of(class: u32, name: u32) -> MemberOfClass
    ensures { result ≡ record { class = class; name = name } }
{
    MemberOfClass { class, name }
}

// What is kept of a key.
fn place_at<K: Eq + Hash>(places: &IndexMap<K, u32>, key: K) -> Option<u32>
where
    K: Copy,
    ensures { result ≡ get K.eq places.now key }
{
    places.get(&key).copied()
}

// Makes the place that is kept of a key no greater than this one.
fn lower<K: Eq + Hash>(places: &mut IndexMap<K, u32>, key: K, at: u32) -> Result<(), NoMemory>
where
    K: Copy,
    ensures { OnOk result (Lowers K.eq places.old places.new key at) }
{
    let least = lesser_of(place_at(places, key), at);
    places.insert(key, least)?;
    Ok(())
}

// The lesser of two places, where there is one before.
fn lesser_of(old: Option<u32>, at: u32) -> u32
    ensures { IsEarlierOf NoGreater old (Some at) (Some result) }
{
    match old {
        Some(old) => { if old <= at { old } else { at } }
        None => at,
    }
}

// The lesser of two places, or the only one.
fn lesser(one: Option<u32>, other: Option<u32>) -> Option<u32>
    ensures { IsEarlierOf NoGreater one other result }
{
    match other {
        Some(other) => Some(lesser_of(one, other)),
        None => one,
    }
}
