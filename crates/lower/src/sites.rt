// The steps that make chain sites: the words, and where the sites are.
#![tactic(auto, using(stepping::proofs::Steps::kept_kept), unfolding(stepping::specs::Done::steps_done, stepping::specs::Done::step_done, crate::specs::Lowers::generated, lowering::specs::Fragments::step_code, lowering::specs::Fragments::step_cache))]

ghost use Rattle.std.specs.Prelude.{◌≡◌, [], ◌∷◌};
ghost use Rattle.lowering.specs.Steps.{Step as Meant, acond as acond_of};
ghost use Rattle.lower.specs.Lowers.{ats_of, targets_of, kept, Lowers};

use asm::Asm;
use block::Cond;
use emission::{Gen, Sites};
use lowering::Site;

// One site more; a third would be left out.
fn site(sites: &mut Sites, at: u32, target: u32)
    ensures ats { ats_of sites.new ≡ kept (ats_of sites.old) (at ∷ []) }
    ensures targets { targets_of sites.new ≡ kept (targets_of sites.old) (target ∷ []) }
{
    let last = Site { at, target };
    *sites = match *sites {
        Sites::None => Sites::One(last),
        Sites::One(first) => Sites::Two(first, last),
        Sites::Two(first, second) => Sites::Two(first, second),
    };
}

pub fn chain(asm: &mut Asm, g: &mut Gen, pc: u32, count: u32)
    ensures { Lowers (Meant.chain pc count ∷ []) asm.old g.old asm.new g.new }
{
    let at = jumps::chain(asm, g, pc, count);
    site(&mut g.sites, at, pc);
}

// Go on at target if the condition holds, else at pc.
pub fn fork_if(asm: &mut Asm, g: &mut Gen, cond: Cond, pc: u32, target: u32, count: u32)
    ensures { Lowers (Meant.fork (acond_of cond) pc target count ∷ []) asm.old g.old asm.new g.new }
{
    let f = jumps::fork(asm, g, choices::acond(cond), pc, target, count);
    site(&mut g.sites, f.at, pc);
    site(&mut g.sites, f.target_at, target);
}
