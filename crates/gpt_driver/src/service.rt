//! The services' bodies, and all of them as one.

pub mod count;
pub mod deinit;
pub mod init;
pub mod mode;
pub mod serve;
pub mod start;
pub mod stop;
pub mod switch;

use count::CountBody;
use deinit::DeInitBody;
use init::InitBody;
use mode::ModeBody;
use serve::ServeBody;
use service_outline::Or;
use start::StartBody;
use stop::StopBody;
use switch::SwitchBody;

/// The bodies of the calls about the whole module.
pub type ModuleBody = Or<InitBody, Or<DeInitBody, ModeBody>>;

/// The bodies of the calls about a channel.
pub type ChannelBody = Or<Or<CountBody, StartBody>, Or<StopBody, SwitchBody>>;

/// A place in any body of the driver.
pub type GptBody = Or<ModuleBody, Or<ChannelBody, ServeBody>>;
