use shared_types::Text;
use tree_model::Path;
use web_url::WebUrl;

/// The page or a module as it makes requests: its web name, the text of that, which its needs share, its path, and
/// its path and suffix as they are shown to a user, which their spellings share.
pub struct Referrer {
    pub name: WebUrl,
    pub text: Text,
    pub path: Path,
    pub shown: Text,
}

// Written out, as a function that drops a referrer at several exits is then proved sooner.
impl Drop for Referrer {
    fn drop(self) {
        let Referrer {
            name: _,
            text: _,
            path: _,
            shown: _,
        } = self;
    }
}
