// The file of one column of an image: where its parts lie, and its writing.
#![tactic(auto)]

ghost use Rattle.std.specs.Prelude.{◌≡◌, ◌*◌, ◌≤◌};
ghost use Rattle.laws.specs.Part.{part, put};
ghost use Rattle.engine.specs.Strips.{Strip};
ghost use Rattle.stripe.specs.Layout.{column_length};
ghost use Rattle.stripe.specs.Params.{Admitted};
ghost use Rattle.column_file.specs.File.{column_at, flag, carried, revisions_from, strips_count_at, strips_from, file_length, file_holding, revisions_of, strips_of, file_of};
ghost use Rattle.column_file.specs.Inner.{ColumnOf, Empty, Asked};

use stripe::Params;

// The count of section one: p, k, r, B, n and the flag.
pub const NUMBERS: usize = 6;

// Where n stands, the flag, and the count of section two, behind which its revisions stand.
pub const COLUMN_AT: usize = 10;

pub const FLAG_AT: usize = 12;

pub const CARRIED_AT: usize = 14;

pub const REVISIONS_FROM: usize = 16;

// The flag of column n: 1 for parity, 0 for data.
pub fn flag(q: Params, n: usize) -> usize
    ensures { (result ≡ flag q n) × (result ≤ 1) }
{
    usize::from(n >= q.k)
}

// How many revisions the file of column n carries: 1 for data, 0 for parity.
pub fn carried(q: Params, n: usize) -> usize
    ensures { (result ≡ carried q n) × (result ≤ 1) }
{
    usize::from(n < q.k)
}

// Where column n of an image starts.
pub fn column_at(q: Params, n: usize) -> usize
    requires { ColumnOf q n }
    ensures { (result ≡ column_at q n) × (result ≤ 2000000) }
{
    if n < q.k {
        q.data_at(n)
    } else {
        q.parity_at(n - q.k)
    }
}

// Where the count of section three stands in the file of column n.
pub fn strips_count_at(q: Params, n: usize) -> usize
    ensures { (result ≡ strips_count_at q n) × (result ≤ 20) }
{
    REVISIONS_FROM + 4 * carried(q, n)
}

// Where the strips start in the file of column n.
pub fn strips_from(q: Params, n: usize) -> usize
    ensures { (result ≡ strips_from q n) × (result ≤ 22) }
{
    strips_count_at(q, n) + 2
}

// The bytes of the file of column n.
pub fn length(q: Params, n: usize) -> usize
    requires { Admitted q }
    ensures { (result ≡ file_length q n) × (result ≤ 30742) }
{
    strips_from(q, n) + q.column_length()
}

// Puts the n bytes of src at `from` in the place of those of s at `to`.
pub fn copy_part(s: &mut [u8], to: usize, src: &[u8], from: usize, n: usize)
    requires { Strip s.old src.now to from n }
    ensures { s.new ≡ put s.old to (part src.now from n) }
{
    let end = from + n;
    engine::copy_in(s, to, &src[from..end]);
}

// Writes section one and the counts of sections two and three around what stands in them.
fn put_counts(file: &mut [u8], q: Params, n: usize)
    requires { Empty file.old q n }
    ensures { file.new ≡ file_holding q n (part file.old revisions_from (4 * carried q n)) (part file.old (strips_from q n) (column_length q)) }
{
    stripe::put_opening(file, NUMBERS, q, n);
    stripe::put_number(file, FLAG_AT, flag(q, n));
    stripe::put_number(file, CARRIED_AT, carried(q, n));
    stripe::put_number(file, strips_count_at(q, n), q.p - 1);
}

// Copies the revision of a data column.
fn copy_revisions(image: &[u8], q: Params, n: usize, file: &mut [u8])
    requires { Asked image.now file.old q n }
    ensures { file.new ≡ put file.old revisions_from (revisions_of image.now q n) }
{
    if n < q.k {
        copy_part(file, REVISIONS_FROM, image, q.revision_at(n), 4);
    }
}

// Copies the strips of column n.
fn copy_strips(image: &[u8], q: Params, n: usize, file: &mut [u8])
    requires { Asked image.now file.old q n }
    ensures { file.new ≡ put file.old (strips_from q n) (strips_of image.now q n) }
{
    copy_part(
        file,
        strips_from(q, n),
        image,
        column_at(q, n),
        q.column_length(),
    );
}

// Fills the slice with the file of column n.
pub fn fill(image: &[u8], q: Params, n: usize, file: &mut [u8])
    requires { Asked image.now file.old q n }
    ensures { file.new ≡ file_of image.now q n }
{
    copy_revisions(image, q, n, file);
    copy_strips(image, q, n, file);
    put_counts(file, q, n);
}
