//! What follows for a cache whose blocks go to the front, for callers to cite.
ghost use Rattle.std.specs.Prelude.{◌≡◌, ◌≤◌, ℕ, List, Ok, Some, length, take, drop};
ghost use Rattle.std.specs.Map.{keys_of};
ghost use Rattle.mr_iter.specs.Versions.{Version};
ghost use Rattle.mr_block.specs.Block.{block_in};
ghost use Rattle.mr_block_cache.specs.declared.span.FileSpan.{FileSpan};
ghost use Rattle.mr_block_cache.specs.Cache.{CachedBlock, held, with_block, brought, with_span, with_spans, AgreesWith, IsWarm};

/// A cache stays true to a file where the block that goes to the front is the file's own, or another file's.
pub fn caches_stay_true()
    ensures put { (file : ℕ) (bytes : List ℕ) (span : FileSpan) (vs : List Version) (cs : List CachedBlock) → (span.file ≡ file → block_in (take span.size (drop span.place bytes)) ≡ Ok vs) → AgreesWith file bytes cs → AgreesWith file bytes (with_block span vs cs) }
    ensures brought { (file : ℕ) (bytes : List ℕ) (span : FileSpan) (cs : List CachedBlock) → AgreesWith file bytes cs → AgreesWith file bytes (brought span cs) }
    ensures held { (file : ℕ) (bytes : List ℕ) (span : FileSpan) (vs : List Version) (cs : List CachedBlock) → AgreesWith file bytes cs → held span cs ≡ Some vs → span.file ≡ file → block_in (take span.size (drop span.place bytes)) ≡ Ok vs }
{}

/// Of blocks that went to the front all are held, where they are at most 1,024.
pub fn fronts_are_held()
    ensures put { (span : FileSpan) (vs : List Version) (cs : List CachedBlock) → keys_of (with_block span vs cs) ≡ with_span span (keys_of cs) }
    ensures brought { (span : FileSpan) (vs : List Version) (cs : List CachedBlock) → held span cs ≡ Some vs → keys_of (brought span cs) ≡ with_span span (keys_of cs) }
    ensures warm { (spans : List FileSpan) (old new : List CachedBlock) → length spans ≤ 1024 → keys_of new ≡ with_spans spans (keys_of old) → IsWarm spans new }
{}
