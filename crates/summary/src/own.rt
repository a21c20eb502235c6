// Vertices that are their own label.
ghost use Rattle.std.specs.Prelude.{◌≡◌, ◌≤◌, length, get_or, eqb};
ghost use Rattle.graph.specs.Limits.{most_vertices};
ghost use Rattle.graph.specs.Numbers.{many};

pub fn count(label: &[u32]) -> u32
    requires { length label.now ≤ most_vertices }
    ensures { result ≡ many (λ v. eqb (get_or label.now v 0) v) (length label.now) }
{
    let mut own: u32 = 0;
    for (v, l) in label.iter().enumerate() {
        own += u32::from(*l as usize == v);
    }
    own
}
