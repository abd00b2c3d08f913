//! What a JSON value is: items, a number, a text, a site.
ghost use Rattle.std.specs.Prelude.{◌≡◌, ◌≢◌, ◌<◌, ◌∷◌, [], ℕ, List, map, IfSome, IfNone};
ghost use Rattle.serde_json.specs.Data.{Data, string};
ghost use Rattle.serde_json.specs.View.{view};
ghost use Rattle.walter_scenario.specs.Parts.{list, whole};

use serde_json::Value;
use walter_base::SiteId;

/// The items of an array.
pub fn items_of(value: &Value) -> Option<&[Value]>
    ensures some { IfSome result (λ items. view value.now ≡ list (map view items.now)) }
    ensures none { IfNone result ((values : List Data) → view value.now ≢ list values) }
{
    Some(value.as_array()?.as_slice())
}

/// The two items of an array.
#[tactic(auto, using(crate::proofs::Arrays::same_length))]
pub fn pair_of(value: &Value) -> Option<(&Value, &Value)>
    ensures some { IfSome result
        (λ found. view value.now ≡ list (view found.0.now ∷ view found.1.now ∷ [])) }
    ensures none { IfNone result
        ((first second : Data) → view value.now ≢ list (first ∷ second ∷ [])) }
{
    let [first, second] = items_of(value)? else {
        return None;
    };
    Some((first, second))
}

/// The three items of an array.
#[tactic(auto, using(crate::proofs::Arrays::same_length))]
pub fn triple_of(value: &Value) -> Option<(&Value, &Value, &Value)>
    ensures some { IfSome result
        (λ found. view value.now
        ≡ list (view found.0.now ∷ view found.1.now ∷ view found.2.now ∷ [])) }
    ensures none { IfNone result
        ((first second third : Data) → view value.now ≢ list (first ∷ second ∷ third ∷ [])) }
{
    let [first, second, third] = items_of(value)? else {
        return None;
    };
    Some((first, second, third))
}

/// The four items of an array.
#[tactic(auto, using(crate::proofs::Arrays::same_length))]
pub fn four_of(value: &Value) -> Option<(&Value, &Value, &Value, &Value)>
    ensures some { IfSome result
        (λ found. view value.now
        ≡ list (view found.0.now ∷ view found.1.now ∷ view found.2.now ∷ view found.3.now ∷ [])) }
    ensures none { IfNone result
        ((first second third fourth : Data)
        → view value.now ≢ list (first ∷ second ∷ third ∷ fourth ∷ [])) }
{
    let [first, second, third, fourth] = items_of(value)? else {
        return None;
    };
    Some((first, second, third, fourth))
}

/// The whole number that the value is.
pub fn whole_of(value: &Value) -> Option<u64>
    ensures some { IfSome result (λ n. view value.now ≡ whole n) }
    ensures none { IfNone result ((n : ℕ) → view value.now ≢ whole n) }
{
    value.as_u64()
}

/// The text that the value is.
pub fn string_of(value: &Value) -> Option<&str>
    ensures some { IfSome result (λ text. view value.now ≡ string text.now) }
    ensures none { IfNone result ((text : List ℕ) → view value.now ≢ string text) }
{
    value.as_str()
}

/// The whole number that the value is, below the limit.
pub fn number_below(limit: u8, value: &Value) -> Option<u8>
    ensures there { IfSome result (λ number. number < limit) }
    ensures some { IfSome result (λ number. view value.now ≡ whole number) }
    ensures none { IfNone result ((number : ℕ) → number < limit → view value.now ≢ whole number) }
{
    let number = u8::try_from(whole_of(value)?).ok()?;
    (number < limit).then_some(number)
}

/// The site that the value names, of so many.
pub fn site_of(sites: u8, value: &Value) -> Option<SiteId>
    ensures there { IfSome result (λ site. site.0 < sites) }
    ensures some { IfSome result (λ site. view value.now ≡ whole site.0) }
    ensures none { IfNone result ((site : ℕ) → site < sites → view value.now ≢ whole site) }
{
    Some(SiteId(number_below(sites, value)?))
}
