// The feature bytes of an entry (document 02, paper 6).
ghost use Rattle.std.specs.Prelude.{◌≡◌};
ghost use Rattle.minimalist.specs.Lexicon.{feature_of, is_feature, selects, licenses, is_licensor, is_licensee};
ghost use Rattle.lexicon.specs.Features.{as_feature, is_category, is_licensee_of};

// A feature: its kind, and a number that partners share.
#[derive(Clone, Copy, PartialEq, Eq)]
pub enum Feature {
    Category(u8),
    Selector(u8),
    Licensor(u8),
    Licensee(u8),
}

// The feature of a byte; refusal 30 meets another byte.
pub fn feature_of(b: u8) -> Option<Feature>
    ensures { as_feature result ≡ feature_of b }
{
    match b {
        1..=15 => Some(Feature::Category(b)),
        17..=31 => Some(Feature::Selector(b % 16)),
        33..=35 => Some(Feature::Licensor(b % 16)),
        49..=51 => Some(Feature::Licensee(b % 16)),
        _ => None,
    }
}

// Whether the byte is a feature.
pub fn is_feature(b: u8) -> bool
    ensures { result ≡ is_feature b }
{
    feature_of(b).is_some()
}

// Whether the feature is the category of the number x.
fn is_category(f: Option<Feature>, x: u8) -> bool
    ensures { result ≡ is_category x (as_feature f) }
{
    f == Some(Feature::Category(x))
}

// Whether s is the selector of the category f.
pub fn selects(s: u8, f: u8) -> bool
    ensures { result ≡ selects s f }
{
    match feature_of(s) {
        Some(Feature::Selector(x)) => is_category(feature_of(f), x),
        _ => false,
    }
}

// Whether the feature is the licensee of the number x.
fn is_licensee_of(f: Option<Feature>, x: u8) -> bool
    ensures { result ≡ is_licensee_of x (as_feature f) }
{
    f == Some(Feature::Licensee(x))
}

// Whether m is the licensee of the licensor p.
pub fn licenses(p: u8, m: u8) -> bool
    ensures { result ≡ licenses p m }
{
    match feature_of(p) {
        Some(Feature::Licensor(x)) => is_licensee_of(feature_of(m), x),
        _ => false,
    }
}

// Whether the byte is a licensor.
pub fn is_licensor(b: u8) -> bool
    ensures { result ≡ is_licensor b }
{
    matches!(feature_of(b), Some(Feature::Licensor(_)))
}

// Whether the byte is a licensee.
pub fn is_licensee(b: u8) -> bool
    ensures { result ≡ is_licensee b }
{
    matches!(feature_of(b), Some(Feature::Licensee(_)))
}
