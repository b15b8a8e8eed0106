// What C and Rust programs call: each export calls the function of the same name of `fulandewu`, and promises
// the same of it. The archive is libfulandewu.a (embed/build).
#![tactic(auto)]

ghost use Rattle.std.specs.Prelude.{◌≡◌, [], ◌∷◌};
ghost use Rattle.vector_types.specs.Read.{read_of};
ghost use Rattle.answer_fields.specs.Fields.{export_outcome};
ghost use Rattle.answer_fields.specs.Exported.{read_export, write_export, convert_export, distance_export, nearer_export, vecs_export, bvecs_export, append_export};
ghost use Rattle.fulandewu.specs.Modes.{mode_of};
ghost use Rattle.fulandewu.specs.Kinds.{written_by, converted_by};
ghost use Rattle.distance.specs.Answer.{distance_of};
ghost use Rattle.distance.specs.declared.Distance.TheVariants.{Cos, L2, Dot, Jaccard};
ghost use Rattle.nearer.specs.Nearer.{nearer_of};
ghost use Rattle.vecs.specs.Vecs.{vector_at, bvecs_outcome};
ghost use Rattle.vecs.specs.Append.{append_outcome};

use fulandewu::Answer;

#[unsafe(no_mangle)]
pub extern "C" fn fulandewu_read(mode: u8, blob: &[u8], answer: &mut Answer) -> u32
    ensures { export_outcome result answer.new [] ≡ read_export (read_of (mode_of mode) blob.now) answer.old }
{
    fulandewu::fulandewu_read(mode, blob, answer)
}

#[unsafe(no_mangle)]
pub extern "C" fn fulandewu_write(
    kind: u8,
    dims: usize,
    body: &[u8],
    out: &mut [u8],
    answer: &mut Answer,
) -> u32
    ensures { export_outcome result answer.new (out.new ∷ []) ≡ write_export (written_by kind dims body.now out.old) answer.old }
{
    fulandewu::fulandewu_write(kind, dims, body, out, answer)
}

#[unsafe(no_mangle)]
pub extern "C" fn fulandewu_convert(
    blob: &[u8],
    kind: u8,
    scratch: &mut [u8],
    out: &mut [u8],
    answer: &mut Answer,
) -> u32
    ensures { export_outcome result answer.new (scratch.new ∷ out.new ∷ [])
        ≡ convert_export (converted_by blob.now kind scratch.old out.old) answer.old }
{
    fulandewu::fulandewu_convert(blob, kind, scratch, out, answer)
}

#[unsafe(no_mangle)]
pub extern "C" fn fulandewu_distance_cos(first: &[u8], second: &[u8], answer: &mut Answer) -> u32
    ensures { export_outcome result answer.new [] ≡ distance_export (distance_of Cos first.now second.now) answer.old }
{
    fulandewu::fulandewu_distance_cos(first, second, answer)
}

#[unsafe(no_mangle)]
pub extern "C" fn fulandewu_distance_l2(first: &[u8], second: &[u8], answer: &mut Answer) -> u32
    ensures { export_outcome result answer.new [] ≡ distance_export (distance_of L2 first.now second.now) answer.old }
{
    fulandewu::fulandewu_distance_l2(first, second, answer)
}

#[unsafe(no_mangle)]
pub extern "C" fn fulandewu_distance_dot(first: &[u8], second: &[u8], answer: &mut Answer) -> u32
    ensures { export_outcome result answer.new [] ≡ distance_export (distance_of Dot first.now second.now) answer.old }
{
    fulandewu::fulandewu_distance_dot(first, second, answer)
}

#[unsafe(no_mangle)]
pub extern "C" fn fulandewu_distance_jaccard(
    first: &[u8],
    second: &[u8],
    answer: &mut Answer,
) -> u32
    ensures { export_outcome result answer.new [] ≡ distance_export (distance_of Jaccard first.now second.now) answer.old }
{
    fulandewu::fulandewu_distance_jaccard(first, second, answer)
}

#[unsafe(no_mangle)]
pub extern "C" fn fulandewu_nearer_cos(
    probe: &[u8],
    first: &[u8],
    second: &[u8],
    answer: &mut Answer,
) -> u32
    ensures { export_outcome result answer.new [] ≡ nearer_export (nearer_of Cos probe.now first.now second.now) answer.old }
{
    fulandewu::fulandewu_nearer_cos(probe, first, second, answer)
}

#[unsafe(no_mangle)]
pub extern "C" fn fulandewu_nearer_l2(
    probe: &[u8],
    first: &[u8],
    second: &[u8],
    answer: &mut Answer,
) -> u32
    ensures { export_outcome result answer.new [] ≡ nearer_export (nearer_of L2 probe.now first.now second.now) answer.old }
{
    fulandewu::fulandewu_nearer_l2(probe, first, second, answer)
}

#[unsafe(no_mangle)]
pub extern "C" fn fulandewu_nearer_dot(
    probe: &[u8],
    first: &[u8],
    second: &[u8],
    answer: &mut Answer,
) -> u32
    ensures { export_outcome result answer.new [] ≡ nearer_export (nearer_of Dot probe.now first.now second.now) answer.old }
{
    fulandewu::fulandewu_nearer_dot(probe, first, second, answer)
}

#[unsafe(no_mangle)]
pub extern "C" fn fulandewu_nearer_jaccard(
    probe: &[u8],
    first: &[u8],
    second: &[u8],
    answer: &mut Answer,
) -> u32
    ensures { export_outcome result answer.new [] ≡ nearer_export (nearer_of Jaccard probe.now first.now second.now) answer.old }
{
    fulandewu::fulandewu_nearer_jaccard(probe, first, second, answer)
}

#[unsafe(no_mangle)]
pub extern "C" fn fulandewu_fvecs_read(file: &[u8], place: usize, answer: &mut Answer) -> u32
    ensures { export_outcome result answer.new [] ≡ vecs_export (vector_at 4 file.now place) answer.old }
{
    fulandewu::fulandewu_fvecs_read(file, place, answer)
}

#[unsafe(no_mangle)]
pub extern "C" fn fulandewu_bvecs_read(
    file: &[u8],
    place: usize,
    out: &mut [u8],
    answer: &mut Answer,
) -> u32
    ensures { export_outcome result answer.new (out.new ∷ []) ≡ bvecs_export (bvecs_outcome file.now place out.old) answer.old }
{
    fulandewu::fulandewu_bvecs_read(file, place, out, answer)
}

#[unsafe(no_mangle)]
pub extern "C" fn fulandewu_fvecs_append(
    blob: &[u8],
    out: &mut [u8],
    fill: usize,
    answer: &mut Answer,
) -> u32
    ensures { export_outcome result answer.new (out.new ∷ []) ≡ append_export (append_outcome blob.now out.old fill) answer.old }
{
    fulandewu::fulandewu_fvecs_append(blob, out, fill, answer)
}
