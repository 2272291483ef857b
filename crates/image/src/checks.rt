// The questions of power-up, 10 to 13.
ghost use Rattle.std.specs.Prelude.{◌≡◌, ◌*◌, ◌≤◌, ltb, length};
ghost use Rattle.model.specs.Image.{module_size, entry_size, data_size, image_size, total, size_right, counts_right, sum_right};
ghost use Rattle.model.specs.Image.{module_allowed, entry_allowed, entries_allowed, kept_allowed, values_allowed};
ghost use Rattle.image.specs.Lengths.{KnownLength};

use crate::sizes;
use numbers::written;

pub(crate) fn size_right(img: &[u8]) -> bool
    ensures { result ≡ size_right img.now }
{
    (img.len() == sizes::WITH_CHANNELS) | (img.len() == sizes::WITH_DATA)
}

// The image to which the other questions are put: one of a known length.
#[derive(Clone, Copy)]
pub(crate) struct Image<'a> {
    pub(crate) bytes: &'a [u8],
    ghost known: { KnownLength bytes.now },
}

// The sum of the bytes.
pub(crate) fn sum(s: &[u8]) -> u32
    requires { length s.now ≤ image_size }
    ensures { result ≡ total s.now }
{
    s.iter().map(|b| u32::from(*b)).sum()
}

// A preset's count has no sign.
fn preset_allowed(n: u32) -> bool
    ensures { result ≡ ltb n 2147483648 }
{
    n < 2147483648
}

// The box's own section.
fn module_allowed(s: &[u8]) -> bool
    requires { length s.now ≡ module_size }
    ensures { result ≡ module_allowed s.now }
{
    let config = fields::module_config_allowed(&s[0..sizes::WD_PRESET]);
    let preset = fields::number_from(&s[sizes::WD_PRESET..sizes::MODULE]);
    config & preset_allowed(preset)
}

fn entry_allowed(s: &[u8; sizes::ENTRY]) -> bool
    ensures { result ≡ entry_allowed s.now }
{
    let config = fields::config_allowed(&s[0..sizes::FEEDBACK]);
    let feedback = fields::number_from(&s[sizes::FEEDBACK..sizes::OUT]);
    let out = fields::number_from(&s[sizes::OUT..sizes::MIN]);
    let min = fields::real_from(&s[sizes::MIN..sizes::MAX]);
    let max = fields::real_from(&s[sizes::MAX..sizes::REALS]);
    let limits = written::limit_allowed(min) & written::limit_allowed(max);
    config & (preset_allowed(feedback) & (preset_allowed(out) & limits))
}

fn entries_allowed(s: &[u8]) -> bool
    requires { 16 * entry_size ≤ length s.now }
    ensures { result ≡ entries_allowed 16 s.now }
{
    let (entries, _) = s.as_chunks::<{ sizes::ENTRY }>();
    entries[..sizes::CHANNELS].iter().all(|e| entry_allowed(e))
}

// RealA, RealB and both tables.
fn data_allowed(s: &[u8]) -> bool
    requires { length s.now ≡ data_size }
    ensures { result ≡ kept_allowed s.now }
{
    let a = fields::real_allowed(&s[0..sizes::REAL_B]);
    let b = fields::real_allowed(&s[sizes::REAL_B..sizes::TABLE1]);
    let table1 = fields::table_allowed(&s[sizes::TABLE1..sizes::TABLE2]);
    let table2 = fields::table_allowed(&s[sizes::TABLE2..sizes::DATA]);
    a & (b & (table1 & table2))
}

impl Image<'_> {
    pub(crate) fn counts_right(&self) -> bool
        ensures { result ≡ counts_right self.now.bytes.now }
    {
        let img = self.bytes;
        let first = img[0] == sizes::ONE_MODULE;
        let second = img[sizes::SECOND_COUNT] == sizes::ALL_CHANNELS;
        if img.len() < sizes::WITH_DATA {
            let third = img[sizes::THIRD_COUNT] == sizes::ONE_SUM;
            return first & (second & third);
        }
        let third = img[sizes::THIRD_COUNT] == sizes::ONE_DATA;
        let fourth = img[sizes::FOURTH_COUNT] == sizes::ONE_SUM;
        first & (second & (third & fourth))
    }

    // The sum is the last two bytes, however long the image is.
    pub(crate) fn sum_right(&self) -> bool
        ensures { result ≡ sum_right self.now.bytes.now }
    {
        let img = self.bytes;
        let at = img.len() - sizes::SUM_BYTES;
        let told = fields::word_from(&img[at..]);
        let n = sum(&img[..at]);
        u32::from(told) == n % 65536
    }

    // Every section that the image has.
    pub(crate) fn values_allowed(&self) -> bool
        ensures { result ≡ values_allowed self.now.bytes.now }
    {
        let img = self.bytes;
        let module = module_allowed(&img[sizes::OWN..sizes::SECOND_COUNT]);
        let entries = entries_allowed(&img[sizes::ENTRIES..sizes::THIRD_COUNT]);
        if img.len() < sizes::WITH_DATA {
            return module & entries;
        }
        let data = data_allowed(&img[sizes::DATA_CHANNEL..sizes::FOURTH_COUNT]);
        module & (entries & data)
    }
}
