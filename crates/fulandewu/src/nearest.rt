// The nearer of two candidates to a probe.
ghost use Rattle.std.specs.Prelude.{◌≡◌, []};
ghost use Rattle.distance.specs.declared.Distance.TheVariants.{Cos, L2, Dot, Jaccard};
ghost use Rattle.nearer.specs.Nearer.{nearer_of};
ghost use Rattle.answer_fields.specs.Fields.{export_outcome};
ghost use Rattle.answer_fields.specs.Exported.{nearer_export};

use answer_fields::{Answer, report_nearer};
use distance::Distance;

// What the four exports do.
fn compare(asked: Distance, probe: &[u8], first: &[u8], second: &[u8], answer: &mut Answer) -> u32
    ensures { export_outcome result answer.new [] ≡ nearer_export (nearer_of asked probe.now first.now second.now) answer.old }
{
    let found = nearer::nearer(asked, probe, first, second);
    report_nearer(found, answer)
}

pub fn fulandewu_nearer_cos(probe: &[u8], first: &[u8], second: &[u8], answer: &mut Answer) -> u32
    ensures { export_outcome result answer.new [] ≡ nearer_export (nearer_of Cos probe.now first.now second.now) answer.old }
{
    compare(Distance::Cos, probe, first, second, answer)
}

pub fn fulandewu_nearer_l2(probe: &[u8], first: &[u8], second: &[u8], answer: &mut Answer) -> u32
    ensures { export_outcome result answer.new [] ≡ nearer_export (nearer_of L2 probe.now first.now second.now) answer.old }
{
    compare(Distance::L2, probe, first, second, answer)
}

pub fn fulandewu_nearer_dot(probe: &[u8], first: &[u8], second: &[u8], answer: &mut Answer) -> u32
    ensures { export_outcome result answer.new [] ≡ nearer_export (nearer_of Dot probe.now first.now second.now) answer.old }
{
    compare(Distance::Dot, probe, first, second, answer)
}

pub fn fulandewu_nearer_jaccard(
    probe: &[u8],
    first: &[u8],
    second: &[u8],
    answer: &mut Answer,
) -> u32
    ensures { export_outcome result answer.new [] ≡ nearer_export (nearer_of Jaccard probe.now first.now second.now) answer.old }
{
    compare(Distance::Jaccard, probe, first, second, answer)
}
