ghost use Rattle.std.specs.Prelude.{◌≡◌, ◌<◌, ◌≤◌, ◌↔◌, ◌+◌, ◌-◌, ◌++◌, [], ◌∷◌, Some, IsSome, IfSome, IsTrue, IfOk, OnOk, OnErr, length, set, slice_get, vec_len, vec_capacity};
ghost use Rattle.std.specs.List.{All, Contains};
ghost use Rattle.lattice_algebra.specs.Matrix.{◌·◌};
ghost use Rattle.lattice_algebra.specs.Operator.{HasEntriesWithin, product};
ghost use Rattle.exact_ops.specs.declared.TheConstants.{UNIT};
ghost use Rattle.exact_ops.specs.Narrow.{IsNarrow};
ghost use Rattle.exact_ops.specs.Raw.{IsListed};
ghost use Rattle.group_closure.specs.Words.{IsUnclosed};
ghost use Rattle.group_closure.specs.Steps.{IsRefused, Extends, IsGenerated};
ghost use Rattle.group_closure.specs.Buckets.{IsFiled};
ghost use Rattle.group_closure.specs.Making.{IsEmpty, IsMade, IsReady, IsMadeUpTo, IsUnderWay};
ghost use Rattle.group_closure.specs.Origins.{AddsMade, AreProducts, IsRow};

use crate::MAX_OPERATORS;
use crate::buckets::Buckets;
use exact_ops::{Op, OpList, compose};
use std::alloc::{AllocError, Global};

/// More than `MAX_OPERATORS` operators, or one with an entry outside -2..=2.
#[derive(Clone, Copy, Drop)]
pub struct Unclosed;

/// The members of a group in the order in which they are made, and how they are made.
#[derive(Drop)]
pub struct Making {
    /// The listed operators that those before them do not make.
    pub generators: Vec<Op>,
    /// The members, the identity first.
    pub members: Vec<Op>,
    /// How each member was made; that of the identity says nothing.
    pub origins: Vec<Origin>,
    /// The places of the products of each member by the generators.
    pub products: Vec<Places>,
}

impl Making {
    /// Takes all memory that making a group needs.
    pub fn reserve(alloc: Global) -> Result<Making, AllocError>
        ensures { IfOk result IsEmpty }
    {
        let generators = Vec::with_capacity(alloc, MAX_OPERATORS)?;
        let members = Vec::with_capacity(alloc, MAX_OPERATORS + 1)?;
        let origins = Vec::with_capacity(alloc, MAX_OPERATORS + 1)?;
        let products = Vec::with_capacity(alloc, MAX_OPERATORS)?;
        Ok(Making {
            generators,
            members,
            origins,
            products,
        })
    }

    /// Makes the group that the listed operators generate. One that those before it already make takes no product.
    pub fn close(&mut self, list: &OpList) -> Result<(), Unclosed>
        requires { IsEmpty self.old }
        ensures made { OnOk result (IsMade self.new) }
        ensures generated { OnOk result (IsGenerated list.now self.new.members.items) }
        ensures narrow { OnOk result (All IsNarrow list.now) }
        ensures unclosed { OnErr result (IsUnclosed list.now) }
    {
        let mut buckets = self.begin();
        for k in 0..list.len() {
            self.take(&mut buckets, list, k)?;
        }
        Ok(())
    }

    /// Makes the group of the identity alone.
    fn begin(&mut self) -> Buckets
        requires { IsEmpty self.old }
        ensures ready { IsReady self.new result }
        ensures none { self.new.generators.items ≡ [] }
    {
        let mut buckets = Buckets::new();
        buckets.add(&self.members, &Op::identity());
        self.members.push_reserved(Op::identity());
        self.origins.push_reserved(Origin {
            earlier: 0,
            generator: 0,
        });
        self.products.push_reserved([0; MAX_OPERATORS]);
        buckets
    }

    /// Makes the listed operator at place k a member.
    fn take(&mut self, buckets: &mut Buckets, list: &OpList, k: usize) -> Result<(), Unclosed>
        requires listed { k < length list.now }
        requires valid { All IsListed list.now }
        requires before { IsMadeUpTo list.now k self.old buckets.old }
        ensures ok { OnOk result (IsMadeUpTo list.now (k + 1) self.new buckets.new) }
        ensures unclosed { OnErr result (IsUnclosed list.now) }
    {
        if is_repeated(list, k) {
            return Ok(());
        }
        let op = narrow_at(list, k)?;
        self.include(buckets, op)?;
        Ok(())
    }

    /// Makes an operator a member, and with it all that the generators and it make. One that is a member changes nothing.
    fn include(&mut self, buckets: &mut Buckets, op: Op) -> Result<(), Unclosed>
        requires ready { IsReady self.old buckets.old }
        requires narrow { IsNarrow op }
        ensures ready { OnOk result (IsReady self.new buckets.new) }
        ensures member { OnOk result (Contains self.new.members.items op) }
        ensures extends { OnOk result (Extends self.old.members.items self.new.members.items) }
        ensures generators { OnOk result
            (All (Contains (self.old.generators.items ++ op ∷ [])) self.new.generators.items) }
        ensures unclosed { OnErr result (IsUnclosed (self.old.generators.items ++ op ∷ [])) }
    {
        if buckets.find(&self.members, &op).is_some() {
            return Ok(());
        }
        widen(
            &self.generators,
            &op,
            &mut self.members,
            &mut self.origins,
            &mut self.products,
            buckets,
        )?;
        self.generators.push_reserved(op);
        generate(
            &self.generators,
            &mut self.members,
            &mut self.origins,
            &mut self.products,
            buckets,
        )?;
        Ok(())
    }
}

/// Whether the listed operator at place k is the one before it.
fn is_repeated(list: &OpList, k: usize) -> bool
    requires { k < length list.now }
    ensures { IsTrue result → (0 < k) × (slice_get list.now k ≡ slice_get list.now (k - 1)) }
{
    k > 0 && list.get(k) == list.get(k - 1)
}

/// The listed operator at place k. Unclosed where it has an entry outside -2..=2.
fn narrow_at(list: &OpList, k: usize) -> Result<Op, Unclosed>
    requires within { k < length list.now }
    requires valid { All IsListed list.now }
    ensures value { IfOk result (λ op. slice_get list.now k ≡ Some op) }
    ensures narrow { IfOk result IsNarrow }
    ensures unclosed { OnErr result (IsUnclosed list.now) }
{
    let Ok(op) = Op::of(&list.get(k)) else {
        return Err(Unclosed);
    };
    Ok(op)
}

/// How a member was made: the product of an earlier member by a generator, each by its place.
#[derive(Clone, Copy, Drop)]
pub struct Origin {
    pub earlier: u8,
    pub generator: u8,
}

/// Places in a list of members, one for each of as many operators as a list has.
pub type Places = [u8; MAX_OPERATORS];

/// Adds the products by an operator that is to be the next generator to those of the members that have their products.
fn widen(
    generators: &[Op],
    op: &Op,
    members: &mut Vec<Op>,
    origins: &mut Vec<Origin>,
    products: &mut Vec<Places>,
    buckets: &mut Buckets,
) -> Result<(), Unclosed>
    requires state { IsUnderWay generators.now members.old.items origins.old.items buckets.old }
    requires products { AreProducts generators.now members.old.items products.old.items }
    requires few { length generators.now < MAX_OPERATORS }
    requires narrow { IsNarrow op.now }
    requires room { MAX_OPERATORS < vec_capacity members.old }
    requires room_origins { MAX_OPERATORS < vec_capacity origins.old }
    ensures state { OnOk result (IsUnderWay (generators.now ++ op.now ∷ [])
        members.new.items origins.new.items buckets.new) }
    ensures products { OnOk result
        (AreProducts (generators.now ++ op.now ∷ []) members.new.items products.new.items) }
    ensures extends { OnOk result (Extends members.old.items members.new.items) }
    ensures capacity { vec_capacity members.new ≡ vec_capacity members.old }
    ensures capacity_origins { vec_capacity origins.new ≡ vec_capacity origins.old }
    ensures capacity_products { vec_capacity products.new ≡ vec_capacity products.old }
    ensures unclosed { OnErr result (IsUnclosed (generators.now ++ op.now ∷ [])) }
{
    let generator = generators.len();
    for k in 0..products.len() {
        let member = members[k];
        let origin = Origin {
            earlier: k as u8,
            generator: generator as u8,
        };
        let place = add_product(&member, op, origin, members, origins, buckets)?;
        write(&mut products[k], generator, place);
    }
    Ok(())
}

/// Writes a place into a row.
fn write(row: &mut Places, generator: usize, place: u8)
    requires { generator < MAX_OPERATORS }
    ensures size { length row.old ≡ MAX_OPERATORS }
    ensures value { row.new ≡ set row.old generator place }
{
    row[generator] = place;
}

/// Adds the products of the members that have none yet. It suffices to multiply each member by each generator: in a finite
/// group an inverse is a product too.
fn generate(
    generators: &[Op],
    members: &mut Vec<Op>,
    origins: &mut Vec<Origin>,
    products: &mut Vec<Places>,
    buckets: &mut Buckets,
) -> Result<(), Unclosed>
    requires state { IsUnderWay generators.now members.old.items origins.old.items buckets.old }
    requires products { AreProducts generators.now members.old.items products.old.items }
    requires room { MAX_OPERATORS < vec_capacity members.old }
    requires room_origins { MAX_OPERATORS < vec_capacity origins.old }
    requires room_products { MAX_OPERATORS ≤ vec_capacity products.old }
    ensures ok { OnOk result (IsGenerated generators.now members.new.items) }
    ensures state { OnOk result
        (IsUnderWay generators.now members.new.items origins.new.items buckets.new) }
    ensures products { OnOk result
        (AreProducts generators.now members.new.items products.new.items) }
    ensures all { OnOk result (vec_len products.new ≡ vec_len members.new) }
    ensures extends { OnOk result (Extends members.old.items members.new.items) }
    ensures capacity { vec_capacity members.new ≡ vec_capacity members.old }
    ensures capacity_origins { vec_capacity origins.new ≡ vec_capacity origins.old }
    ensures capacity_products { vec_capacity products.new ≡ vec_capacity products.old }
    ensures unclosed { OnErr result (IsUnclosed generators.now) }
{
    let mut done = products.len();
    while done < members.len() {
        let member = members[done];
        let row = multiply(generators, &member, done as u8, members, origins, buckets)?;
        products.push_reserved(row);
        done += 1;
    }
    Ok(())
}

/// Adds the products of a member by the generators, and says where they stand.
fn multiply(
    generators: &[Op],
    member: &Op,
    place: u8,
    members: &mut Vec<Op>,
    origins: &mut Vec<Origin>,
    buckets: &mut Buckets,
) -> Result<Places, Unclosed>
    requires state { IsUnderWay generators.now members.old.items origins.old.items buckets.old }
    requires room { MAX_OPERATORS < vec_capacity members.old }
    requires room_origins { MAX_OPERATORS < vec_capacity origins.old }
    requires member { slice_get members.old.items place ≡ Some member.now }
    ensures state { OnOk result
        (IsUnderWay generators.now members.new.items origins.new.items buckets.new) }
    ensures extends { OnOk result (Extends members.old.items members.new.items) }
    ensures capacity { vec_capacity members.new ≡ vec_capacity members.old }
    ensures capacity_origins { vec_capacity origins.new ≡ vec_capacity origins.old }
    ensures products { IfOk result (λ row. IsRow generators.now member.now members.new.items row) }
    ensures unclosed { OnErr result (IsUnclosed generators.now) }
{
    let mut row = [0; MAX_OPERATORS];
    for (k, generator) in generators.iter().enumerate() {
        let origin = Origin {
            earlier: place,
            generator: k as u8,
        };
        row[k] = add_product(member, generator, origin, members, origins, buckets)?;
    }
    Ok(row)
}

/// The place of the product of a member by a generator, which is added where the list lacks it. Unclosed where an entry lies
/// outside -2..=2, or there are then too many.
fn add_product(
    member: &Op,
    generator: &Op,
    origin: Origin,
    members: &mut Vec<Op>,
    origins: &mut Vec<Origin>,
    buckets: &mut Buckets,
) -> Result<u8, Unclosed>
    requires within { vec_len members.old ≤ MAX_OPERATORS }
    requires room { MAX_OPERATORS < vec_capacity members.old }
    requires room_origins { MAX_OPERATORS < vec_capacity origins.old }
    requires count { vec_len origins.old ≡ vec_len members.old }
    requires filed { IsFiled members.old.items buckets.old }
    ensures adds { OnOk result (AddsMade members.old.items origins.old.items
        (product UNIT member.now generator.now) origin members.new.items origins.new.items) }
    ensures narrow { OnOk result (HasEntriesWithin 2 (member.now.w · generator.now.w)) }
    ensures place { IfOk result
        (λ k. slice_get members.new.items k ≡ Some (product UNIT member.now generator.now)) }
    ensures within { OnOk result (vec_len members.new ≤ MAX_OPERATORS) }
    ensures filed { OnOk result (IsFiled members.new.items buckets.new) }
    ensures capacity { vec_capacity members.new ≡ vec_capacity members.old }
    ensures capacity_origins { vec_capacity origins.new ≡ vec_capacity origins.old }
    ensures refused { OnErr result (IsRefused members.old.items member.now generator.now) }
{
    let Some(op) = compose(member, generator) else {
        return Err(Unclosed);
    };
    add_made(members, origins, buckets, op, origin)
}

/// The place of an operator, which is added where the list lacks it. Unclosed where there are then too many.
fn add_made(
    members: &mut Vec<Op>,
    origins: &mut Vec<Origin>,
    buckets: &mut Buckets,
    op: Op,
    origin: Origin,
) -> Result<u8, Unclosed>
    requires within { vec_len members.old ≤ MAX_OPERATORS }
    requires room { MAX_OPERATORS < vec_capacity members.old }
    requires room_origins { MAX_OPERATORS < vec_capacity origins.old }
    requires count { vec_len origins.old ≡ vec_len members.old }
    requires filed { IsFiled members.old.items buckets.old }
    ensures adds { AddsMade members.old.items origins.old.items op origin
        members.new.items origins.new.items }
    ensures place { IfOk result (λ k. slice_get members.new.items k ≡ Some op) }
    ensures within { OnOk result (vec_len members.new ≤ MAX_OPERATORS) }
    ensures filed { OnOk result (IsFiled members.new.items buckets.new) }
    ensures capacity { vec_capacity members.new ≡ vec_capacity members.old }
    ensures capacity_origins { vec_capacity origins.new ≡ vec_capacity origins.old }
    ensures beyond { OnErr result (MAX_OPERATORS < vec_len members.new) }
{
    if let Some(place) = buckets.find(members, &op) {
        return Ok(place);
    }
    buckets.add(members, &op);
    let place = members.len();
    members.push_reserved(op);
    origins.push_reserved(origin);
    if place == MAX_OPERATORS {
        return Err(Unclosed);
    }
    Ok(place as u8)
}

/// The first place of an operator.
pub fn place_among(members: &[Op], op: &Op) -> Option<u8>
    requires { length members.now ≤ MAX_OPERATORS }
    ensures some { IsSome result ↔ Contains members.now op.now }
    ensures place { IfSome result (λ i. slice_get members.now i ≡ Some op.now) }
{
    for (i, member) in members.iter().enumerate() {
        if member == op {
            return Some(i as u8);
        }
    }
    None
}
