//! Laws of the definitions that the reader of sites stands on.
ghost use Rattle.toml.specs.Data.{Members};
ghost use Rattle.rep_site.specs.Reading.{IsSiteOf, IsSound};
ghost use Rattle.rep_site.specs.declared.key.SiteKey.{SiteKey};
ghost use Rattle.rep_site.specs.declared.site.Site.{Site};

/// Members say a site exactly where each of their keys is sound.
pub fn sound_keys_say_a_site()
    ensures sound { (members : Members) (site : Site) → IsSiteOf members site
        → (key : SiteKey) → IsSound members key }
    ensures said { (members : Members) → ((key : SiteKey) → IsSound members key)
        → (site : Site) × IsSiteOf members site }
{}
