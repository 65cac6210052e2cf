ghost use Rattle.index.specs.Equal.{equal};
ghost use Rattle.pool.specs.Contents.{meant};

use super::Pool;
use index::Sought;

/// The content of a pool that equals this one.
#[derive(Clone, Copy)]
pub struct Same<'p, 'a> {
    pub pool: &'p Pool<'a>,
    pub content: &'p [u8],
}

impl Sought for Same<'_, '_> {
    ghost is = { λ s. equal s.content.now (meant s.pool.now).contents };

    fn is(&self, number: u16) -> bool {
        self.pool.equals(number, self.content)
    }
}
