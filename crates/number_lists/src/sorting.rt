ghost use Rattle.std.specs.Prelude.{Contains, ℕ};
ghost use Rattle.std.specs.List.Sorted.{IsStrictlyIncreasing};

/// Sorts the numbers, and leaves each once.
pub fn sort_once(numbers: &mut Vec<u32>)
    ensures rises { IsStrictlyIncreasing numbers.new.items }
    ensures keeps { (n : ℕ) → Contains numbers.old.items n → Contains numbers.new.items n }
    ensures adds_none { (n : ℕ) → Contains numbers.new.items n → Contains numbers.old.items n }
{
    numbers.sort_unstable();
    numbers.dedup();
}

/// Sorts the indexes, and leaves each once.
pub fn sort_indexes_once(indexes: &mut Vec<usize>)
    ensures rises { IsStrictlyIncreasing indexes.new.items }
    ensures keeps { (n : ℕ) → Contains indexes.old.items n → Contains indexes.new.items n }
    ensures adds_none { (n : ℕ) → Contains indexes.new.items n → Contains indexes.old.items n }
{
    indexes.sort_unstable();
    indexes.dedup();
}
