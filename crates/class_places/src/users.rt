// Which classes capture what a class captures.

ghost use Rattle.std.specs.Prelude.{◌≡◌, IfOk, OnOk, length, map};
ghost use Rattle.std.specs.List.{Contains};
ghost use Rattle.class_typing.specs.Captures.{class_of_type};
ghost use Rattle.name_types.specs.View.{shown};
ghost use Rattle.body_places.specs.View.{program_seen};
ghost use Rattle.body_walks.specs.Seen.{met_seen};
ghost use Rattle.class_places.specs.way.Users.{Adds, AreUsers, IsBelow, IsMaker, IsRound, IsUnder};

use body_places::Program;
use body_walks::Met;
use header_steps::class_of;
use je_base::Memory;
use je_core::ClassId;
use name_types::SrcTy;
use std::alloc::Global;

/// Of each class the one directly round it, those that make objects of it, and those directly below it.
#[derive(Drop)]
pub struct Users {
    lists: Vec<Vec<ClassId>>,
}

impl Users {
    ghost use Rattle.std.specs.Prelude.{◌≡◌, IfOk, OnOk, length};
    ghost use Rattle.name_lookup.specs.View.{numbers};
    ghost use Rattle.class_places.specs.way.Users.{Adds, IsEmpty, IsPair, users_of};

    // Of so many classes, none yet.
    fn none(alloc: Global, count: usize) -> Result<Users, Memory>
        ensures whole { IfOk result (λ users. length users.lists.items ≡ count) }
        ensures empty { IfOk result IsEmpty }
    {
        let mut lists = Vec::new(alloc);
        for _ in 0..count {
            lists.push(Vec::new(alloc))?;
        }
        Ok(Users { lists })
    }

    // One more user of a class.
    fn add(&mut self, class: ClassId, user: ClassId) -> Result<(), Memory>
        ensures { OnOk result (Adds (IsPair class.0 user.0) self.old self.new) }
    {
        if let Some(list) = self.lists.get_mut(class.0 as usize) {
            list.push(user)?;
        }
        Ok(())
    }

    /// The users of a class.
    #[tactic(auto, unfolding(crate::specs::way::Users::users_of))]
    pub fn of(&self, class: ClassId) -> &[ClassId]
        ensures { numbers result.now ≡ users_of self.now class.0 }
    {
        match self.lists.get(class.0 as usize) {
            Some(list) => list,
            None => &[],
        }
    }
}

// The class directly round each.
fn add_round(program: &Program, users: &mut Users) -> Result<(), Memory>
    ensures { OnOk result (Adds (IsRound (program_seen program.now)
        (length (program_seen program.now).source.sites)) users.old users.new) }
{
    let sites = program.source.sites;
    for at in 0..sites.len() {
        let class = ClassId(at as u32);
        if let Some(round) = sites.outside(class).within {
            users.add(class, round)?;
        }
    }
    Ok(())
}

// A class, of those of these types.
fn add_above(users: &mut Users, class: ClassId, types: &[SrcTy]) -> Result<(), Memory>
    ensures { OnOk result (Adds (IsUnder (map shown types.now) class.0) users.old users.new) }
{
    for ty in types {
        if let Some(above) = class_of(ty) {
            users.add(above, class)?;
        }
    }
    Ok(())
}

// Each class, of those directly above it.
fn add_below(program: &Program, users: &mut Users) -> Result<(), Memory>
    ensures { OnOk result (Adds (IsBelow (program_seen program.now)
        (length (program_seen program.now).source.sites)) users.old users.new) }
{
    for at in 0..program.source.sites.len() {
        let class = ClassId(at as u32);
        add_above(users, class, program.heads.supers(class))?;
    }
    Ok(())
}

// Each class, of those of which it makes objects.
fn add_makers(met: &[Met], users: &mut Users) -> Result<(), Memory>
    ensures { OnOk result (Adds (IsMaker (map met_seen met.now)) users.old users.new) }
{
    for one in met {
        if let Met::Makes { within, made } = one {
            users.add(*made, *within)?;
        }
    }
    Ok(())
}

/// The users of all classes.
pub fn all_users(program: &Program, met: &[Met]) -> Result<Users, Memory>
    ensures { IfOk result (AreUsers (program_seen program.now) (map met_seen met.now)) }
{
    let mut users = Users::none(program.source.alloc, program.source.sites.len())?;
    add_round(program, &mut users)?;
    add_below(program, &mut users)?;
    add_makers(met, &mut users)?;
    Ok(users)
}
