// The distances of two blobs.
ghost use Rattle.std.specs.Prelude.{◌≡◌, []};
ghost use Rattle.distance.specs.Answer.{distance_of};
ghost use Rattle.distance.specs.declared.Distance.TheVariants.{Cos, L2, Dot, Jaccard};
ghost use Rattle.answer_fields.specs.Fields.{export_outcome};
ghost use Rattle.answer_fields.specs.Exported.{distance_export};

use answer_fields::{Answer, report_distance};
use distance::{Distance, vector_distance};

// What the four exports do.
fn measure(asked: Distance, first: &[u8], second: &[u8], answer: &mut Answer) -> u32
    ensures { export_outcome result answer.new [] ≡ distance_export (distance_of asked first.now second.now) answer.old }
{
    let found = vector_distance(asked, first, second);
    report_distance(found, answer)
}

pub fn fulandewu_distance_cos(first: &[u8], second: &[u8], answer: &mut Answer) -> u32
    ensures { export_outcome result answer.new [] ≡ distance_export (distance_of Cos first.now second.now) answer.old }
{
    measure(Distance::Cos, first, second, answer)
}

pub fn fulandewu_distance_l2(first: &[u8], second: &[u8], answer: &mut Answer) -> u32
    ensures { export_outcome result answer.new [] ≡ distance_export (distance_of L2 first.now second.now) answer.old }
{
    measure(Distance::L2, first, second, answer)
}

pub fn fulandewu_distance_dot(first: &[u8], second: &[u8], answer: &mut Answer) -> u32
    ensures { export_outcome result answer.new [] ≡ distance_export (distance_of Dot first.now second.now) answer.old }
{
    measure(Distance::Dot, first, second, answer)
}

pub fn fulandewu_distance_jaccard(first: &[u8], second: &[u8], answer: &mut Answer) -> u32
    ensures { export_outcome result answer.new [] ≡ distance_export (distance_of Jaccard first.now second.now) answer.old }
{
    measure(Distance::Jaccard, first, second, answer)
}
