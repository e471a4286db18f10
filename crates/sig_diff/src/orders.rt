ghost use Rattle.std.specs.Prelude.{◌≡◌};
ghost use Rattle.sig_diff.specs.Sorting.{IsInOrder, by_key, in_order};

use crate::functions::Mapper;
use crate::lists::Items;

/// The numbers in the order of their images, those with one image in their own order. It takes no memory.
///
/// By the remainder of 3 the numbers 4, 1, 3 come as 3, 1, 4.
pub fn in_order<M: Mapper<i64, i64>>(key: &M, items: Items<i64>) -> Items<i64>
    requires { M.can_call key.now }
    ensures numbers { result ≡ in_order (by_key (M.maps key.now)) items }
    ensures sorted { IsInOrder (by_key (M.maps key.now)) items result }
{
    let mut numbers = items.into_vec();
    numbers.sort_unstable_by_key(|number| (key.call(*number), *number));
    Items::from_vec(numbers)
}
